// Whether the rows of a book are within rule.
ghost use Rattle.std.specs.Prelude.{◌≡◌, ◌&&◌, ◌≤◌, length};
ghost use Rattle.octets.specs.Lists.{every};
ghost use Rattle.slot_sets.specs.Sets.{slots_of};
ghost use Rattle.book_members.specs.Members.{row_of, rows_of, held_slots, vacant};
ghost use Rattle.book_members.specs.Rules.{empty_is, row_rule, past_time, unknown_in, distinct, led_by, rows_rule};
ghost use Rattle.book_members.specs.Judging.{judged};

use crate::member::Member;
use moments::in_order;
use octets::addresses::is_address;
use slot_sets::masks::{apart, below, is_empty, joined, one_to_four, size, without};

impl Member {
    fn is_empty(self) -> bool
        ensures { result ≡ empty_is (row_of self) }
    {
        self == Member::EMPTY
    }

    // By itself: zeros, or an address with 1 to 4 of the data slots and a time that is past, the manager with any.
    fn within_rule(self, manager: u16, data_slots: u8, last: u32) -> bool
        ensures { result ≡ (row_rule data_slots (row_of self) && past_time manager last (row_of self)) }
    {
        if self.unit == 0 {
            return self.is_empty();
        }
        let outside = without(self.slots, below(data_slots as u32));
        is_address(self.unit)
            & one_to_four(self.slots)
            & is_empty(outside)
            & ((self.unit == manager) | in_order(self.time, last))
    }
}

// Whether no row is this unit's.
fn unknown_in(rows: &[Member], unit: u16) -> bool
    ensures { result ≡ unknown_in unit (rows_of rows.now) }
{
    rows.iter().all(|member| member.unit != unit)
}

// Whether no two rows are one unit's: each is compared with those before it, among which fewer are free.
fn distinct(rows: &[Member]) -> bool
    ensures { result ≡ distinct (rows_of rows.now) }
{
    for (at, member) in rows.iter().enumerate() {
        if member.unit != 0 && !unknown_in(&rows[..at], member.unit) {
            return false;
        }
    }
    true
}

// What the rows are together: whether each is within rule by itself and holds no slot of those behind it, what they hold, and how many are free.
#[derive(Drop)]
struct Together {
    good: bool,
    held: u64,
    vacant: usize,
}

// Each row by itself and against those behind it.
// Kept: by its index. Under `iter().rev()` the proof knows of a row only that a call of `next` gave it, and not its place (tried: it did not close).
fn judged(rows: &[Member], manager: u16, data_slots: u8, last: u32) -> Together
    ensures { (result.good ≡ judged manager data_slots last (rows_of rows.now)) × (slots_of result.held ≡ held_slots (rows_of rows.now)) × (result.vacant ≡ vacant (rows_of rows.now)) }
{
    let mut good = true;
    let mut held: u64 = 0;
    let mut vacant: usize = 0;
    for i in (0..rows.len()).rev() {
        let member = rows[i];
        good = member.within_rule(manager, data_slots, last) & apart(member.slots, held) & good;
        held = joined(member.slots, held);
        vacant += (member.unit == 0) as usize;
    }
    Together { good, held, vacant }
}

// Whether the first row is the manager's.
fn led_by(rows: &[Member], manager: u16) -> bool
    ensures { result ≡ led_by manager (rows_of rows.now) }
{
    rows.first().is_some_and(|first| first.unit == manager)
}

// Whether the rows that a plan uses are within rule, with its manager in the first and a free slot for each free row.
pub fn rows_within_rule(rows: &[Member], manager: u16, data_slots: u8, last: u32) -> bool
    ensures { result ≡ rows_rule manager data_slots last (rows_of rows.now) }
{
    let all = judged(rows, manager, data_slots, last);
    let room = size(without(below(data_slots as u32), all.held));
    led_by(rows, manager) & all.good & distinct(rows) & (all.vacant <= room as usize)
}

// Whether every row is zeros.
pub fn all_empty(rows: &[Member]) -> bool
    ensures { result ≡ every empty_is (rows_of rows.now) }
{
    rows.iter().all(|member| member.is_empty())
}
