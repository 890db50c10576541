// The rows of a book: 21 in an array, of which a plan uses the first `count`. Who is live, and which row is whose.
ghost use Rattle.std.specs.Prelude.{◌≡◌, min, length, take};
ghost use Rattle.book_members.specs.Members.{row_of, rows_of, lent_rows, first_rows, kept, current, placed};

use crate::member::Member;
use moments::age;
use site_plan::plan::Plan;

// How many places are in use: no more than there are.
pub fn in_use(count: u8) -> usize
    ensures { result ≡ min count 21 }
{
    (count as usize).min(21)
}

// The rows that are in use.
pub fn used(rows: &[Member; 21], count: u8) -> &[Member]
    ensures { (rows_of result.now ≡ take count (rows_of rows.now)) × (length result.now ≡ min count 21) × (lent_rows result ≡ first_rows (lent_rows rows.entry) count) }
{
    &rows[..in_use(count)]
}

// Where the first row of a unit is; of unit 0 the lowest free row.
pub fn place_for(rows: &[Member], unit: u16) -> Option<usize>
    ensures { result ≡ placed unit (rows_of rows.now) }
{
    rows.iter().position(|member| member.unit == unit)
}

fn kept(member: Member, time: u32) -> Member
    ensures { row_of result ≡ kept time (row_of member) }
{
    if age(time, member.time) <= Plan::LIVE_MS {
        return member;
    }
    Member::EMPTY
}

// The rows at a time: silent members are dropped, the manager in the first row never.
pub fn current(rows: [Member; 21], time: u32) -> [Member; 21]
    ensures { rows_of result ≡ current time (rows_of rows) }
{
    let mut out = rows;
    for member in &mut out[1..] {
        *member = kept(*member, time);
    }
    out
}
