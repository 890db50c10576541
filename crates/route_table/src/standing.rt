// The rows that stand: gone ones are dropped, and the others move to the front.
// Kept: this loop and all that go up the rows, here and in the crates above, end at the destination 0 themselves: no count of the rows in use is stored, so
// that a slice of them takes a walk of its own to find its end.
ghost use Rattle.std.specs.Prelude.{◌≡◌, length};
ghost use Rattle.octets.specs.Lists.{every};
ghost use Rattle.route_table.specs.Rows.{stands, in_use, pad, standing, standing_places};

use crate::row::Row;

// Whether every row in use stands.
fn all_stand(rows: [Row; 48], time: u32) -> bool
    ensures { result ≡ every (stands time) (in_use rows) }
{
    for row in &rows {
        if row.destination == 0 {
            return true;
        }
        if !row.stands(time) {
            return false;
        }
    }
    true
}

// The rows that stand, at the front.
fn gathered(rows: [Row; 48], time: u32) -> [Row; 48]
    ensures { result ≡ pad (standing time (in_use rows)) }
{
    let mut out = [Row::NONE; 48];
    let mut n = 0;
    for row in &rows {
        if row.destination == 0 {
            return out;
        }
        if !row.stands(time) {
            continue;
        }
        out[n] = *row;
        n += 1;
    }
    out
}

// The places without the rows that are gone. Most calls find none gone and move nothing.
#[tactic(auto, unfolding(crate::specs::Rows::standing_places))]
pub fn standing_places(rows: [Row; 48], time: u32) -> [Row; 48]
    ensures { (result ≡ standing_places time rows) × (length rows ≡ 48) }
{
    if all_stand(rows, time) {
        return rows;
    }
    gathered(rows, time)
}
