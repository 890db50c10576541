// Restoring a book from an image: as its plan and its rows say, every time the given one.
ghost use Rattle.std.specs.Prelude.{◌≡◌, cond, ◌+◌, ◌*◌, length, ltb};
ghost use Rattle.octets.specs.Lists.{tab};
ghost use Rattle.octets.specs.Numbers.{num};
ghost use Rattle.slot_sets.specs.Sets.{slots_of};
ghost use Rattle.book_members.specs.Members.{row_of, rows_of, empty_row, member_with, restored_at};
ghost use Rattle.book.specs.Books.{changed, no_book};
ghost use Rattle.book_image.specs.Forms.{fits};
ghost use Rattle.book_image.specs.Images.{sections, row_in, restore_of};

use crate::writing::size_for;
use book::book::Book;
use book_members::member::Member;
use book_members::rows::in_use;
use octets::choices::either;
use octets::refusals::{Refusal, refuse_if};
use octets::stored::Stored;
use site_plan::plan_bytes::section_plan;

// Whether the contents and the length are those of an image with so many rows.
fn fits(s: &[u8], rows: u8) -> bool
    ensures { result ≡ fits (sections rows) s.now }
{
    (u8::read(s, 0) == 2)
        & (u8::read(s, 1) == 1)
        & (u16::read(s, 2) == 11)
        & (u16::read(s, 4) == 9)
        & (u8::read(s, 6) == 2)
        & (u16::read(s, 7) == 20)
        & (u16::read(s, 9) == 10 * u16::from(rows))
        & (s.len() == size_for(rows))
}

// The row in 10 bytes, at a time. An empty row has none.
fn member_in(s: &[u8], time: u32) -> Member
    ensures { row_of result ≡ restored_at time (member_with (num 2 s.now 0) (slots_of (num 8 s.now 2)) 0) }
{
    let unit = u16::read(s, 0);
    Member {
        unit,
        slots: u64::read(s, 2),
        time: either(unit == 0, 0, time),
    }
}

// The rows that a plan uses, then zeros. A part of known length spares a test of the image's end before each number.
fn members_in(s: &[u8], time: u32, count: u8) -> [Member; 21]
    requires { length s.now ≡ 20 + 10 * count }
    ensures { rows_of result ≡ tab 21 (λ i. cond (ltb i count) (row_in s.now time i) empty_row) }
{
    let mut rows = [Member::EMPTY; 21];
    for place in 0..in_use(count) {
        let start = 20 + 10 * place;
        rows[place] = member_in(&s[start..start + 10], time);
    }
    rows
}

// The book of an accepted image, at a time; any other bytes are refused.
#[tactic(auto, unfolding(crate::specs::Images::restore_of, crate::specs::Images::accepted_image, crate::specs::Images::image_book))]
pub fn restore(image: &[u8], time: u32) -> Result<Book, Refusal>
    ensures { changed no_book result ≡ restore_of image.now time }
{
    let plan = section_plan(image, 11);
    refuse_if(!fits(image, plan.rows), Refusal::Rule)?;
    let rows = members_in(image, time, plan.rows);
    let book = Book { plan, time, rows };
    refuse_if(!book.within_rule(), Refusal::Rule)?;
    Ok(book)
}
