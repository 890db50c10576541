// Whether bytes hold a table within rule, and its row for a destination: one loop over the rows in use, and one over the zeros behind them.
ghost use Rattle.std.specs.Prelude.{◌≡◌, true, length, ◌≤◌, IfSome};
ghost use Rattle.octets.specs.Lists.{tab};
ghost use Rattle.route_table.specs.Rows.{in_use, row_for};
ghost use Rattle.route_bytes.specs.TableBytes.{row_at, holds_table};
ghost use Rattle.route_in_place.specs.Judged.{rows_ok, front_ok, row_ending};
ghost use Rattle.route_in_place.specs.Lookups.{judged_for};
ghost use Rattle.route_in_place.specs.Outcomes.{judged};

use octets::addresses::is_address;
use octets::choices::either;
use octets::stored::Stored;
use octets::zeros::zeros_from;
use route_bytes::tables::{head_of, row_in};
use route_table::row::Row;
use route_table::table::pair_ok;

// The rows in front: where they end, the destination of the last, and where the one that is wanted ends, 0 where there is none.
// Kept: `past` is a number and no Option: tried, judging 48 rows takes a tenth more instructions, since each turn of the loop then chooses two values: a relay
// of 100 bytes, at 1.04 of Rust in instructions, would be at about 1.12, where it may be at 1.2. That it is where the row ends, and not where it starts,
// spares an instruction for each row.
#[derive(Drop)]
struct Front {
    end: usize,
    highest: u16,
    past: usize,
}

// The rows that stand in front, each above the one before; none where one breaks a rule. The first that is not ends them: behind it there may be zeros
// alone, and if it is none it is no zeros. Since they ascend, only the last can be to no address, which is left to the caller.
fn rows_in_front(s: &[u8], own: u16, last: u32, wanted: u16) -> Option<Front>
    requires { length s.now ≡ 539 }
    ensures { (front_ok result s.now ≡ rows_ok own last s.now) × IfSome result (λ front. (front.past ≤ 539) × (front_ok result s.now ≡ true → row_ending front.past s.now ≡ row_for wanted (in_use (tab 48 (row_at s.now))))) }
{
    let mut below: u16 = 0;
    let mut past: usize = 0;
    for place in 0..48 {
        let start = 11 + 11 * place;
        let end = start + 11;
        let bytes = &s[start..end];
        let row = row_in(bytes);
        if row.destination <= below {
            return Some(Front {
                end: start,
                highest: below,
                past,
            });
        }
        let kept = row.carries(own, last) & (u8::read(bytes, 10) <= 1);
        if !kept {
            return None;
        }
        past = either(row.destination == wanted, end, past);
        below = row.destination;
    }
    Some(Front {
        end: 539,
        highest: below,
        past,
    })
}

// The row that ends before a byte, none where there is no room for one.
fn row_ending(s: &[u8], past: usize) -> Row
    requires { past ≤ length s.now }
    ensures { result ≡ row_ending past s.now }
{
    if past < 11 {
        return Row::NONE;
    }
    row_in(&s[past - 11..past])
}

// The row for a destination of the table within rule that bytes hold, `Row::NONE` where it has none; None where they hold no such table.
// A row that breaks a rule ends the call: with one way out for both answers the compiler would make a number of each test in the loop, a quarter more
// instructions. The row that is wanted is found by the same loop, since going up the rows once more would cost as much as half of judging them.
pub fn judged_for(s: &[u8], wanted: u16) -> Option<Row>
    ensures { judged result ≡ judged_for wanted s.now }
{
    if s.len() != 539 {
        return None;
    }
    let head = head_of(s);
    let front = rows_in_front(s, head.own, head.time, wanted)?;
    let pair = pair_ok(head.forwarded, head.origin, head.sequence);
    let zeros = zeros_from(s, front.end);
    let address = is_address(head.own);
    let holds = address & (u8::read(s, 6) <= 1) & pair & (front.highest <= 0xFFFE) & zeros;
    if !holds {
        return None;
    }
    Some(row_ending(s, front.past))
}

// Whether these are the bytes of a table within rule.
// Kept: the destination 0 for no row that is wanted, and no Option: no row in use leads to 0, so that none is found.
pub fn holds_table(s: &[u8]) -> bool
    ensures { result ≡ holds_table s.now }
{
    judged_for(s, 0).is_some()
}
