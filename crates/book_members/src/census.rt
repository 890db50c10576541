// What the rows of a book are to a unit that asks for slots: where it is, where it could be, and what is free.
ghost use Rattle.std.specs.Prelude.{◌≡◌, ◌≤◌, length};
ghost use Rattle.slot_sets.specs.Sets.{slots_of};
ghost use Rattle.book_members.specs.Members.{rows_of, placed, free, vacant};

use crate::member::Member;
use octets::choices::either;
use slot_sets::masks::{below, joined, without};

// `own` is the place of the unit's row and `place` that of the lowest free one; `slots` are the data slots that no row holds, `vacant` is how many rows are
// free.
#[derive(Drop)]
pub struct Census {
    pub own: Option<usize>,
    pub place: Option<usize>,
    pub slots: u64,
    pub vacant: usize,
}

// One loop for all four.
// Kept: by its index, as the loop of `judged` in rules.rt, whose proof did not close without one.
pub fn counted(rows: &[Member], data_slots: u8, unit: u16) -> Census
    ensures { (result.own ≡ placed unit (rows_of rows.now)) × (result.place ≡ placed 0 (rows_of rows.now)) × (slots_of result.slots ≡ free data_slots (rows_of rows.now)) × (result.vacant ≡ vacant (rows_of rows.now)) × (result.vacant ≤ length rows.now) }
{
    let mut own = None;
    let mut place = None;
    let mut held: u64 = 0;
    let mut vacant: usize = 0;
    for i in (0..rows.len()).rev() {
        let member = rows[i];
        own = either(member.unit == unit, Some(i), own);
        place = either(member.unit == 0, Some(i), place);
        held = joined(member.slots, held);
        vacant += (member.unit == 0) as usize;
    }
    Census {
        own,
        place,
        slots: without(below(data_slots as u32), held),
        vacant,
    }
}
