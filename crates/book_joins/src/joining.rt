// A join request: a newcomer takes the lowest free row and its share of the free slots, and a live member is told what it holds.
ghost use Rattle.std.specs.Prelude.{◌≡◌, ◌+◌, ◌-◌, min};
ghost use Rattle.slot_sets.specs.Sets.{slots_of, count, lowest};
ghost use Rattle.book.specs.Books.{contents};
ghost use Rattle.book_joins.specs.Joins.{wish, answered_by, join_of};

use crate::grants::{Granted, settle, spare, wish};
use crate::responses::bytes_for;
use book::book::Book;
use book_members::census::{Census, counted};
use book_members::member::Member;
use book_members::rows::{current, used};
use frame_requests::JoinRequest;
use moments::in_order;
use octets::refusals::{Refusal, refuse_if};
use slot_sets::masks::lowest;

// A newcomer's slots: the lowest of the free ones, and no more than leave one for each other empty row.
fn granted(census: &Census, asked: u8) -> u64
    ensures { slots_of result ≡ lowest (min (wish asked) (count (slots_of census.now.slots) - census.now.vacant + 1)) (slots_of census.now.slots) }
{
    lowest(census.slots, wish(asked).min(spare(census) + 1))
}

// A unit asks to be a member: it is told its row and its slots. A request for network 0 is for any.
#[tactic(auto, unfolding(crate::specs::Joins::join_of))]
pub fn join(book: Book, frame: &[u8], time: u32, out: &mut [u8]) -> Result<Granted, Refusal>
    ensures { answered_by (contents book) result out.new ≡ join_of (contents book) frame.now time out.old }
{
    let plan = book.plan;
    refuse_if(!book.within_rule(), Refusal::Rule)?;
    JoinRequest::refusal(frame)?;
    let request = JoinRequest::of(frame);
    let unit = request.node;
    refuse_if(unit == plan.manager, Refusal::Own)?;
    let foreign = (request.network != 0) & (request.network != plan.network);
    refuse_if(foreign, Refusal::Network)?;
    refuse_if(!in_order(book.time, time), Refusal::Earlier)?;
    let rows = current(book.rows, time);
    let census = counted(used(&rows, plan.rows), plan.data_slots, unit);
    let at = census.own.or(census.place).ok_or(Refusal::Full)?;
    let slots = match census.own {
        Some(_) => rows[at].slots,
        None => granted(&census, request.slots),
    };
    refuse_if(out.len() < bytes_for(slots), Refusal::Room)?;
    Ok(settle(book, rows, at, Member { unit, slots, time }, out))
}
