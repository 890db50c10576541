// One row of a routing table: how far a destination is, and by which neighbour.
ghost use Rattle.std.specs.Prelude.{◌≡◌, cond};
ghost use Rattle.route_table.specs.Places.{carries_rule, ok_row};
ghost use Rattle.route_table.specs.Rows.{usable, left_at, leads, stands, row_rule, is_none, withdrawn_at, lost, forgotten};

use moments::{age, in_order};
use octets::addresses::is_address;
use octets::choices::either;

// The largest field first, so that rows have no gaps.
#[derive(Clone, Copy, PartialEq, Eq)]
pub struct Row {
    pub time: u32,
    pub destination: u16,
    pub next_hop: u16,
    pub hops: u8,
    pub quality: u8,
    pub withdrawn: bool,
}

// How long a row stands after its time.
fn lifetime(withdrawn: bool) -> u32
    ensures { result ≡ cond withdrawn 60000 360000 }
{
    if withdrawn {
        Row::WITHDRAWN_MS
    } else {
        Row::STANDS_MS
    }
}

impl Row {
    // A place that is not in use.
    pub const NONE: Row = Row {
        time: 0,
        destination: 0,
        next_hop: 0,
        hops: 0,
        quality: 0,
        withdrawn: false,
    };

    // How long a row may carry traffic, how long it stands, and how long if it was withdrawn.
    pub const USABLE_MS: u32 = 300_000;

    pub const STANDS_MS: u32 = 360_000;

    pub const WITHDRAWN_MS: u32 = 60_000;

    pub const MOST_HOPS: u8 = 16;

    pub const LEAST_QUALITY: u8 = 40;

    // Whether it may carry traffic at this time.
    pub fn usable(self, time: u32) -> bool
        ensures { result ≡ usable time self }
    {
        !self.withdrawn & (age(time, self.time) <= Row::USABLE_MS)
    }

    // For how many ms more it is usable.
    pub fn left(self, time: u32) -> u32
        ensures { result ≡ left_at time self }
    {
        let old = age(time, self.time);
        Row::USABLE_MS.saturating_sub(old)
    }

    // Whether traffic to a destination may go by it at this time.
    pub fn leads(self, destination: u16, time: u32) -> bool
        ensures { result ≡ leads destination time self }
    {
        (self.destination == destination) & self.usable(time)
    }

    // Whether it is not gone at this time.
    pub fn stands(self, time: u32) -> bool
        ensures { result ≡ stands time self }
    {
        age(time, self.time) <= lifetime(self.withdrawn)
    }

    // Whether it keeps the rules in the table of a unit, at its last accepted time, but for its destination being an address.
    pub fn carries(self, own: u16, last: u32) -> bool
        ensures { result ≡ carries_rule own last self }
    {
        !(self.destination == own)
            & (is_address(self.next_hop) & !(self.next_hop == own))
            & ((1 <= self.hops) & (self.hops <= Row::MOST_HOPS))
            & (Row::LEAST_QUALITY <= self.quality)
            & in_order(self.time, last)
    }

    // Whether it keeps all of them.
    pub fn good(self, own: u16, last: u32) -> bool
        ensures { result ≡ row_rule own last self }
    {
        is_address(self.destination) & self.carries(own, last)
    }

    fn is_none(self) -> bool
        ensures { result ≡ is_none self }
    {
        self == Row::NONE
    }

    // Whether it may stand before a row with this destination, 0 for none.
    // Kept: 0 and no Option, as the place behind holds it and the definition `ok_before` takes it.
    pub(crate) fn ordered(self, own: u16, last: u32, after: u16) -> bool
        ensures { result ≡ ok_row own last self after }
    {
        if self.destination == 0 {
            self.is_none() & (after == 0)
        } else {
            self.good(own, last) & ((after == 0) | (self.destination < after))
        }
    }

    // Whether it is withdrawn when a unit is forgotten.
    pub fn lost(self, unit: u16, time: u32) -> bool
        ensures { result ≡ lost unit time self }
    {
        self.usable(time) & ((self.destination == unit) | (self.next_hop == unit))
    }

    // The row when a unit is forgotten.
    pub fn forgotten(self, unit: u16, time: u32) -> Row
        ensures { result ≡ forgotten unit time self }
    {
        let withdrawn = Row {
            time,
            withdrawn: true,
            ..self
        };
        either(self.lost(unit, time), withdrawn, self)
    }
}
