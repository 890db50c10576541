// A unit's table of at most 48 routes, by value.
ghost use Rattle.std.specs.Prelude.{◌≡◌, map, length};
ghost use Rattle.route_table.specs.Places.{ok_places};
ghost use Rattle.route_table.specs.Rows.{forgotten, in_use, row_for};
ghost use Rattle.octets.specs.Answers.{first};
ghost use Rattle.octets.specs.Refusals.{status_of};
ghost use Rattle.route_table.specs.Outcomes.{changed, found};
ghost use Rattle.route_table.specs.Tables.{rows_of, head_of, placed, pair_ok, within_rule, empty_table, fresh_of, found_by, lookup_of, unforgotten_reasons, forget_of};

use crate::row::Row;
use crate::standing::standing_places;
use moments::in_order;
use octets::addresses::is_address;
use octets::refusals::{Refusal, refuse_if};

// `forwarded` says whether a beacon was forwarded; `origin` and `sequence` are then the pair of the last one.
// Kept: the three are no Option, since a stored table may hold a pair out of rule, which `pair_ok` tells and is refused with 14.
#[derive(Clone, Copy)]
pub struct Table {
    pub own: u16,
    pub time: u32,
    pub forwarded: bool,
    pub origin: u16,
    pub sequence: u16,
    pub rows: [Row; 48],
}

// A table without its rows.
// Kept: its pair is no Option, as Table's: the head of a stored table may hold a pair out of rule.
#[derive(Clone, Copy)]
pub struct Head {
    pub own: u16,
    pub time: u32,
    pub forwarded: bool,
    pub origin: u16,
    pub sequence: u16,
}

// What a lookup finds: the next hop, how many hops away the destination is, and for how many ms more the row is usable.
#[derive(Clone, Copy, Debug, PartialEq, Eq)]
pub struct Route {
    pub next_hop: u16,
    pub hops: u8,
    pub left: u32,
}

// Whether each place may stand before the next.
// Kept: an index, and no `zip` of the places with those behind them: tried, the proof did not close, since such a loop gives no list that it goes over.
fn places_ok(own: u16, last: u32, rows: [Row; 48]) -> bool
    ensures { (result ≡ ok_places own last rows) × (length rows ≡ 48) }
{
    for i in 0..47 {
        if !rows[i].ordered(own, last, rows[i + 1].destination) {
            return false;
        }
    }
    rows[47].ordered(own, last, 0)
}

// The pair of the last beacon forwarded, or zeros.
// Kept: a flag and two numbers, as Table's: this tells a stored pair that is out of rule, which no Option holds.
pub fn pair_ok(forwarded: bool, origin: u16, sequence: u16) -> bool
    ensures { result ≡ pair_ok forwarded origin sequence }
{
    if forwarded {
        is_address(origin)
    } else {
        (origin == 0) & (sequence == 0)
    }
}

// The row for a destination, or none.
// Kept: `Row::NONE` and no Option, as the definition `row_for`: `found_by` refuses that row like one that does not lead there.
pub fn row_for(rows: [Row; 48], destination: u16) -> Row
    ensures { result ≡ row_for destination (in_use rows) }
{
    for row in &rows {
        if row.destination == 0 {
            return Row::NONE;
        }
        if row.destination == destination {
            return *row;
        }
    }
    Row::NONE
}

// Each row when a unit is forgotten.
fn forgotten_rows(rows: [Row; 48], unit: u16, time: u32) -> [Row; 48]
    ensures { result ≡ map (forgotten unit time) rows }
{
    let mut out = rows;
    for row in &mut out {
        *row = row.forgotten(unit, time);
    }
    out
}

// What a table within rule answers to a lookup, where it has this last accepted time and this row for the destination: a table by value and one that
// lies in bytes find the row in their own ways.
#[tactic(auto, unfolding(crate::specs::Tables::found_by))]
pub fn found_by(last: u32, row: Row, destination: u16, time: u32) -> Result<Route, Refusal>
    ensures { found result ≡ found_by last row destination time }
{
    refuse_if(!is_address(destination), Refusal::Field)?;
    refuse_if(!in_order(last, time), Refusal::Earlier)?;
    refuse_if(!row.leads(destination, time), Refusal::NoRoute)?;
    Ok(Route {
        next_hop: row.next_hop,
        hops: row.hops,
        left: row.left(time),
    })
}

// Why a table within rule of the unit `own`, with this last accepted time, does not forget a unit.
pub fn why_unforgotten(own: u16, last: u32, unit: u16, time: u32) -> Result<(), Refusal>
    ensures { status_of result ≡ first (unforgotten_reasons own last unit time) }
{
    refuse_if(!is_address(unit), Refusal::Field)?;
    refuse_if(unit == own, Refusal::Own)?;
    refuse_if(!in_order(last, time), Refusal::Earlier)
}

impl Head {
    // The table with this head and these places.
    pub fn placed(self, rows: [Row; 48]) -> Table
        ensures { result ≡ placed self rows }
    {
        Table {
            own: self.own,
            time: self.time,
            forwarded: self.forwarded,
            origin: self.origin,
            sequence: self.sequence,
            rows,
        }
    }
}

impl Table {
    // An empty table; a unit that is no address is refused.
    #[tactic(auto, unfolding(crate::specs::Tables::fresh_of))]
    pub fn fresh(own: u16, time: u32) -> Result<Table, Refusal>
        ensures { changed (empty_table 0 0) result ≡ fresh_of own time }
    {
        refuse_if(!is_address(own), Refusal::Field)?;
        Ok(Table {
            own,
            time,
            forwarded: false,
            origin: 0,
            sequence: 0,
            rows: [Row::NONE; 48],
        })
    }

    pub fn head(self) -> Head
        ensures { result ≡ head_of self }
    {
        Head {
            own: self.own,
            time: self.time,
            forwarded: self.forwarded,
            origin: self.origin,
            sequence: self.sequence,
        }
    }

    // Whether it is a table as document 01 says.
    pub fn within_rule(self) -> bool
        ensures { result ≡ within_rule self }
    {
        is_address(self.own)
            & pair_ok(self.forwarded, self.origin, self.sequence)
            & places_ok(self.own, self.time, self.rows)
    }

    // What it answers to a lookup where it is within rule.
    pub fn route_to(self, to: u16, time: u32) -> Result<Route, Refusal>
        ensures { found result ≡ found_by self.time (row_for to (rows_of self)) to time }
    {
        found_by(self.time, row_for(self.rows, to), to, time)
    }

    // The next hop to a destination, by a row that is usable at this time.
    #[tactic(auto, unfolding(crate::specs::Tables::lookup_of, crate::specs::Tables::found_by))]
    pub fn lookup(self, destination: u16, time: u32) -> Result<Route, Refusal>
        ensures { found result ≡ lookup_of self destination time }
    {
        refuse_if(!self.within_rule(), Refusal::Rule)?;
        self.route_to(destination, time)
    }

    // Withdraws all usable rows to a unit or through it.
    #[tactic(auto, unfolding(crate::specs::Tables::forget_of))]
    pub fn forget(self, unit: u16, time: u32) -> Result<Table, Refusal>
        ensures { changed self result ≡ forget_of self unit time }
    {
        refuse_if(!self.within_rule(), Refusal::Rule)?;
        why_unforgotten(self.own, self.time, unit, time)?;
        let standing = standing_places(self.rows, time);
        Ok(Table {
            time,
            rows: forgotten_rows(standing, unit, time),
            ..self
        })
    }
}
