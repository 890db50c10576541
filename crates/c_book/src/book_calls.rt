// A member book of 308 bytes, kept by the caller: made of a plan, a member heard or gone, and its schedule.
ghost use Rattle.std.specs.Prelude.{◌≡◌, ◌<◌, ◌^◌, IfOk, MatchResult};
ghost use Rattle.octets.specs.Calls.{write_left};
ghost use Rattle.octets.specs.Refusals.{status_of};
ghost use Rattle.book.specs.Books.{Contents, changed};
ghost use Rattle.c_book.specs.BookCalls.{book_left, leaves, fresh_call, heard_call, leave_call, schedule_call};

use book::book::Book;
use book_bytes::books::{BOOK_SIZE, book_of, write_back};
use octets::refusals::{Refusal, refuse_if, status};
use site_plan::plan_bytes::{PLAN_SIZE, plan_of};

// The end of every call that changes a book: the new one goes to the buffer, unless that is no book's or the call was refused.
pub(crate) fn keep(book: &mut [u8], next: Result<Book, Refusal>) -> Result<(), Refusal>
    ensures { (b : Contents) → book_left (status_of result) book.new ≡ leaves book.old (changed b next) }
{
    refuse_if(book.len() != BOOK_SIZE, Refusal::Rule)?;
    write_back(book, next)
}

// The end of every call that fills a buffer: how many bytes were written, to the caller.
pub(crate) fn tell(answer: Result<usize, Refusal>, written: &mut u32) -> Result<(), Refusal>
    requires { IfOk answer (λ n. n < 2 ^ 32) }
    ensures { (status_of result ≡ status_of answer) × MatchResult answer (λ n. written.new ≡ n) (λ r. written.new ≡ written.old) }
{
    let size = answer?;
    *written = size as u32;
    Ok(())
}

// Makes the book of a plan, with the manager in row 0 and this time as last accepted.
#[tactic(auto, unfolding(crate::specs::BookCalls::fresh_call))]
pub fn braidlark_book_fresh(book: &mut [u8], plan: &[u8], time: u32) -> u8
    ensures { book_left result book.new ≡ fresh_call book.old plan.now time }
{
    if plan.len() != PLAN_SIZE {
        return Refusal::Rule.number();
    }
    status(keep(book, Book::fresh(plan_of(plan, 0), time)))
}

// Renews a live member's time.
#[tactic(auto, unfolding(crate::specs::BookCalls::heard_call))]
pub fn braidlark_heard(book: &mut [u8], unit: u16, time: u32) -> u8
    ensures { book_left result book.new ≡ heard_call book.old unit time }
{
    let next = book_of(&book[..]).heard(unit, time);
    status(keep(book, next))
}

// Frees a live member's row and slots.
#[tactic(auto, unfolding(crate::specs::BookCalls::leave_call))]
pub fn braidlark_leave(book: &mut [u8], unit: u16, time: u32) -> u8
    ensures { book_left result book.new ≡ leave_call book.old unit time }
{
    let next = book_of(&book[..]).leave(unit, time);
    status(keep(book, next))
}

// Writes a live member's schedule at a hop, one byte a slot, and says how many slots there are.
#[tactic(auto, unfolding(crate::specs::BookCalls::schedule_call))]
pub fn braidlark_schedule(
    book: &[u8],
    unit: u16,
    hop: u32,
    time: u32,
    out: &mut [u8],
    written: &mut u32,
) -> u8
    ensures { write_left result out.new written.new ≡ schedule_call book.now unit hop time out.old written.old }
{
    if book.len() != BOOK_SIZE {
        return Refusal::Rule.number();
    }
    status(tell(book_of(book).schedule(unit, hop, time, out), written))
}
