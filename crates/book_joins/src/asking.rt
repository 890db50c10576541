// A slot request: a member's holding is brought to as many slots as it asks for and may have.
ghost use Rattle.std.specs.Prelude.{◌≡◌, ◌+◌, ◌-◌, min};
ghost use Rattle.slot_sets.specs.Sets.{slots_of, count};
ghost use Rattle.book.specs.Books.{contents};
ghost use Rattle.book_joins.specs.Joins.{wish, brought, answered_by, ask_of};

use crate::grants::{Granted, settle, spare, wish};
use crate::responses::bytes_for;
use book::book::Book;
use book_members::census::{Census, counted};
use book_members::member::Member;
use book_members::rows::{current, used};
use frame_requests::SlotRequest;
use moments::in_order;
use octets::refusals::{Refusal, refuse_if};
use slot_sets::masks::{joined, lowest, released, size};

// A holding brought to so many slots: the lowest free ones are added, or its own highest released.
fn brought(to: u32, own: u64, spaces: u64) -> u64
    ensures { slots_of result ≡ brought to (slots_of own) (slots_of spaces) }
{
    let held = size(own);
    if held <= to {
        return joined(own, lowest(spaces, to - held));
    }
    released(own, held - to)
}

// What a member that holds `own` has after it asked.
fn asks(own: u64, census: &Census, asked: u8) -> u64
    ensures { slots_of result ≡ brought (min (wish asked) (count (slots_of own) + (count (slots_of census.now.slots) - census.now.vacant))) (slots_of own) (slots_of census.now.slots) }
{
    let most = size(own) + spare(census);
    brought(wish(asked).min(most), own, census.slots)
}

// A live member asks for slots: it is told all that it then holds.
#[tactic(auto, unfolding(crate::specs::Joins::ask_of))]
pub fn ask(book: Book, frame: &[u8], time: u32, out: &mut [u8]) -> Result<Granted, Refusal>
    ensures { answered_by (contents book) result out.new ≡ ask_of (contents book) frame.now time out.old }
{
    let plan = book.plan;
    refuse_if(!book.within_rule(), Refusal::Rule)?;
    SlotRequest::refusal(frame)?;
    let request = SlotRequest::of(frame);
    let unit = request.node;
    refuse_if(unit == plan.manager, Refusal::Own)?;
    refuse_if(!in_order(book.time, time), Refusal::Earlier)?;
    let rows = current(book.rows, time);
    let census = counted(used(&rows, plan.rows), plan.data_slots, unit);
    let at = census.own.ok_or(Refusal::NoMember)?;
    let slots = asks(rows[at].slots, &census, request.slots);
    refuse_if(out.len() < bytes_for(slots), Refusal::Room)?;
    Ok(settle(book, rows, at, Member { unit, slots, time }, out))
}
