// A book as 308 bytes, the lowest byte of a number first: the plan, the last accepted time, then 21 rows of 14.
ghost use Rattle.std.specs.Prelude.{◌≡◌, ◌<◌, ◌≤◌, length};
ghost use Rattle.std.proofs.lemmas.List.Edits.{sets};
ghost use Rattle.octets.specs.Calls.{after};
ghost use Rattle.octets.specs.Layouts.{fields, bytes};
ghost use Rattle.octets.specs.Refusals.{status_of};
ghost use Rattle.book_members.specs.Members.{row_of, rows_of};
ghost use Rattle.book.specs.Books.{Contents, contents, changed};
ghost use Rattle.book_bytes.specs.BookBytes.{row_widths, row_values, row_from, row_at, rows_bytes, book_size, book_in, bytes_of_book, book_over};

use book::book::Book;
use book_members::member::Member;
use octets::parts::part;
use octets::refusals::Refusal;
use octets::stored::Stored;
use site_plan::plan_bytes::{plan_of, put_plan};

pub const BOOK_SIZE: usize = 308;

// Where the last accepted time stands, behind the plan.
const TIME_AT: usize = 10;

// The row in the first 14 bytes of a slice.
fn member_in(s: &[u8]) -> Member
    ensures { row_of result ≡ row_from (fields row_widths s.now 0) }
{
    Member {
        unit: u16::read(s, 0),
        slots: u64::read(s, 2),
        time: u32::read(s, 10),
    }
}

// The row at a place, counted from 0. A part of known length spares a test of the buffer's end before each field.
fn member_at(s: &[u8], place: usize) -> Member
    requires { place < 21 }
    ensures { row_of result ≡ row_at s.now place }
{
    let start = 14 + 14 * place;
    match s.get(start..start + 14) {
        Some(row) => member_in(row),
        None => member_in(part(s, start, 14)),
    }
}

// The book that the bytes say, within rule or not. A byte past the end is 0.
pub fn book_of(s: &[u8]) -> Book
    ensures { contents result ≡ book_in s.now }
{
    let mut rows = [Member::EMPTY; 21];
    for (place, row) in rows.iter_mut().enumerate() {
        *row = member_at(s, place);
    }
    Book {
        plan: plan_of(s, 0),
        time: u32::read(s, TIME_AT),
        rows,
    }
}

// The bytes of a row, from a place on.
fn put_member(out: &mut [u8], at: usize, member: Member)
    requires { at ≤ 308 }
    ensures { out.new ≡ sets out.old at (bytes row_widths (row_values (row_of member))) }
{
    member.unit.store(out, at);
    member.slots.store(out, at + 2);
    member.time.store(out, at + 10);
}

// Each row is put into a part of known length, which spares a test of the buffer's end before each field. The row that the end cuts is the last.
// Kept: a loop of its own beside those of an image's rows and a table's, which have room for all. One for the three would need a trait, with the bytes of
// a row as its ghost, and a type for each form, which is no plainer than three loops of four lines.
fn put_members(out: &mut [u8], rows: &[Member; 21])
    ensures { out.new ≡ sets out.old 14 (rows_bytes (rows_of rows.now)) }
{
    for (written, member) in rows.iter().enumerate() {
        let start = 14 + 14 * written;
        let end = start + 14;
        if out.len() < end {
            put_member(out, start, *member);
            return;
        }
        put_member(&mut out[start..end], 0, *member);
    }
}

// The bytes of a book, as far as there is room.
pub fn put_book(out: &mut [u8], book: Book)
    ensures { (out.new ≡ sets out.old 0 (bytes_of_book (contents book))) × (length book.rows ≡ 21) }
{
    put_plan(out, 0, book.plan);
    book.time.store(out, TIME_AT);
    put_members(out, &book.rows);
}

// The end of every call that changes a stored book: the new one is written where nothing refuses it.
pub fn write_back(book: &mut [u8], next: Result<Book, Refusal>) -> Result<(), Refusal>
    ensures { (status_of result ≡ status_of next) × (book.new ≡ book_over book.old next) × ((b : Contents) → status_of next ≡ 0 → length (bytes_of_book (changed b next).book) ≡ book_size) }
{
    put_book(book, next?);
    Ok(())
}

// The same for a caller that refuses by a number of its own, any byte, 0 for none: that number is the answer.
pub fn write_back_numbered(book: &mut [u8], refused: u8, next: Book) -> u8
    ensures { (result ≡ refused) × (book.new ≡ after refused book.old (sets book.old 0 (bytes_of_book (contents next)))) × (refused ≡ 0 → length (bytes_of_book (contents next)) ≡ book_size) }
{
    if refused != 0 {
        return refused;
    }
    put_book(book, next);
    0
}
