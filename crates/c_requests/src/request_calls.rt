// Frames that a manager answers over a book of 308 bytes: a request to join, and a request for slots. Bytes of another number are found out before
// anything is written.
ghost use Rattle.std.specs.Prelude.{◌≡◌, ◌≤◌, List, ℕ, IfOk, length};
ghost use Rattle.octets.specs.Calls.{after};
ghost use Rattle.octets.specs.Refusals.{status_of};
ghost use Rattle.book.specs.Books.{Contents};
ghost use Rattle.book_joins.specs.Joins.{answered_by};
ghost use Rattle.book_bytes.specs.BookBytes.{book_size, bytes_of_book};
ghost use Rattle.c_requests.specs.RequestCalls.{request_left, join_call, slot_request_call};

use book_bytes::books::{BOOK_SIZE, book_of, write_back};
use book_joins::asking::ask;
use book_joins::grants::Granted;
use book_joins::joining::join;
use octets::refusals::{Refusal, status};

// The end of both calls: unless something refuses it, the book goes to its buffer, and the number of bytes written to the caller.
fn settle(
    book: &mut [u8],
    granted: Result<Granted, Refusal>,
    written: &mut u32,
) -> Result<(), Refusal>
    requires size { length book.old ≡ book_size }
    requires short { IfOk granted (λ g. g.written ≤ 845) }
    ensures { (b : Contents) (held : List ℕ) → let a = answered_by b granted held in
        request_left (status_of result) book.new held written.new ≡ request_left a.refused (after a.refused book.old (bytes_of_book a.book)) held (after a.refused written.old a.written) }
{
    let granted = granted?;
    *written = granted.written as u32;
    write_back(book, Ok(granted.book))
}

// Lets a unit join, writes a response for each of its slots, and says how many bytes they have.
pub fn braidlark_join(
    book: &mut [u8],
    frame: &[u8],
    time: u32,
    out: &mut [u8],
    written: &mut u32,
) -> u8
    ensures { request_left result book.new out.new written.new ≡ join_call book.old frame.now time out.old written.old }
{
    if book.len() != BOOK_SIZE {
        return Refusal::Rule.number();
    }
    let granted = join(book_of(&book[..]), frame, time, out);
    status(settle(book, granted, written))
}

// Brings a member's slots to what it asks for, as far as there are spare ones, and answers as a join does.
pub fn braidlark_slot_request(
    book: &mut [u8],
    frame: &[u8],
    time: u32,
    out: &mut [u8],
    written: &mut u32,
) -> u8
    ensures { request_left result book.new out.new written.new ≡ slot_request_call book.old frame.now time out.old written.old }
{
    if book.len() != BOOK_SIZE {
        return Refusal::Rule.number();
    }
    let brought = ask(book_of(&book[..]), frame, time, out);
    status(settle(book, brought, written))
}
