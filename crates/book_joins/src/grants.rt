// What a join and a slot request answer, and what both take from the rows.
ghost use Rattle.std.specs.Prelude.{◌≡◌, ◌-◌, ◌<◌, ◌≤◌, Ok};
ghost use Rattle.slot_sets.specs.Sets.{slots_of, count};
ghost use Rattle.book_members.specs.Members.{rows_of, current};
ghost use Rattle.book.specs.Books.{contents};
ghost use Rattle.book_joins.specs.Joins.{wish, answered_by, grants};

use crate::responses::{bytes_for, put_responses};
use book::book::Book;
use book_members::census::Census;
use book_members::member::Member;
use slot_sets::masks::size;

// How many bytes were written, and the book that then stands.
#[derive(Drop)]
pub struct Granted {
    pub written: usize,
    pub book: Book,
}

// How many slots a unit may ask for: at least 1, at most 4.
pub(crate) fn wish(asked: u8) -> u32
    ensures { result ≡ wish asked }
{
    u32::from(asked).max(1).min(4)
}

// How many free slots no free row needs.
pub(crate) fn spare(census: &Census) -> u32
    ensures { (result ≡ count (slots_of census.now.slots) - census.now.vacant) × (result ≤ 64) }
{
    (size(census.slots) as usize).saturating_sub(census.vacant) as u32
}

// What an accepted call gives: the unit's row is written into the rows of its time, and its responses into the buffer.
pub(crate) fn settle(
    book: Book,
    rows: [Member; 21],
    at: usize,
    member: Member,
    out: &mut [u8],
) -> Granted
    requires there { at < 21 }
    requires rows { rows_of rows ≡ current member.time (rows_of book.rows) }
    ensures { answered_by (contents book) (Ok result) out.new ≡ grants 0 (contents book) member.unit member.time at (slots_of member.slots) out.old }
{
    let mut rows = rows;
    put_responses(out, book.plan, at as u8, member);
    rows[at] = member;
    Granted {
        written: bytes_for(member.slots),
        book: Book {
            time: member.time,
            rows,
            ..book
        },
    }
}
