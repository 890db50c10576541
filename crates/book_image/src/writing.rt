// Writing the image of a book: the head with its contents, the plan, then the rows of live members.
ghost use Rattle.std.specs.Prelude.{◌≡◌, ◌+◌, ◌*◌, ◌≤◌, length};
ghost use Rattle.std.proofs.lemmas.List.Edits.{sets};
ghost use Rattle.octets.specs.Layouts.{bytes};
ghost use Rattle.octets.specs.Told.{wrote};
ghost use Rattle.book_members.specs.Members.{row_of, rows_of};
ghost use Rattle.book.specs.Books.{contents};
ghost use Rattle.book_image.specs.Forms.{head_bytes, form_size};
ghost use Rattle.book_image.specs.Images.{row_widths, row_values, sections, rows_place, rows_bytes, image_written};

use book::book::Book;
use book_members::member::Member;
use book_members::rows::{current, used};
use moments::in_order;
use octets::refusals::{Refusal, refuse_if};
use octets::stored::Stored;
use site_plan::plan::Plan;
use site_plan::plan_bytes::put_section;

// How many bytes an image with so many rows has.
pub(crate) fn size_for(rows: u8) -> usize
    ensures { result ≡ form_size (sections rows) }
{
    20 + 10 * usize::from(rows)
}

// Two sections: the plan, 9 bytes from 11 on, and the rows, 10 bytes each from 20 on.
fn put_head(out: &mut [u8], rows: u8)
    ensures { out.new ≡ sets out.old 0 (head_bytes (sections rows)) }
{
    2u8.store(out, 0);
    1u8.store(out, 1);
    11u16.store(out, 2);
    9u16.store(out, 4);
    2u8.store(out, 6);
    20u16.store(out, 7);
    (10 * u16::from(rows)).store(out, 9);
}

// The bytes of a row.
fn put_row(out: &mut [u8], member: Member)
    ensures { out.new ≡ sets out.old 0 (bytes row_widths (row_values (row_of member))) }
{
    member.unit.store(out, 0);
    member.slots.store(out, 2);
}

// The bytes of rows. Each is put into a part of known length, which spares a test of the buffer's end before each number.
// Kept: a loop of its own beside those of a book's rows and a table's. One for the three would need a trait, and is no plainer than three of four lines.
fn put_rows(out: &mut [u8], rows: &[Member])
    requires { 20 + 10 * length rows.now ≤ length out.old }
    ensures { out.new ≡ sets out.old rows_place (rows_bytes (rows_of rows.now)) }
{
    for (written, member) in rows.iter().enumerate() {
        let start = 20 + 10 * written;
        put_row(&mut out[start..start + 10], *member);
    }
}

// Writes the image of a book at a time. Form 1 has no place for the kind of beacons.
#[tactic(auto, unfolding(crate::specs::Images::image_written))]
pub fn write_image(book: Book, time: u32, out: &mut [u8]) -> Result<usize, Refusal>
    ensures { wrote result out.new ≡ image_written (contents book) time out.old }
{
    let plan = book.plan;
    let size = size_for(plan.rows);
    refuse_if(!book.within_rule(), Refusal::Rule)?;
    refuse_if(!in_order(book.time, time), Refusal::Earlier)?;
    refuse_if(plan.beacon_type != Plan::BEACON, Refusal::Rule)?;
    refuse_if(out.len() < size, Refusal::Room)?;
    let live = current(book.rows, time);
    put_head(out, plan.rows);
    put_section(out, 11, plan);
    put_rows(out, used(&live, plan.rows));
    Ok(size)
}
