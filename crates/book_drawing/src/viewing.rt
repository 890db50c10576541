// What slotview prints of an image.
ghost use Rattle.std.specs.Prelude.{◌≡◌, min, ◌≤◌, length, take};
ghost use Rattle.std.proofs.lemmas.List.Edits.{sets};
ghost use Rattle.book_drawing.specs.Views.{view_of};

use crate::drawing::put_book;
use book_image::restoring::restore;
use octets::parts::put_bytes;

// Writes the text of an image, as far as there is room, and says how many bytes of it are in the buffer; the last two parts only say that they are there.
pub fn view(image: &[u8], out: &mut [u8]) -> usize
    ensures { (out.new ≡ sets out.old 0 (view_of image.now)) × (result ≡ min (length (view_of image.now)) (length out.old)) × (result ≤ length out.new) × (result ≡ length (take result out.new)) }
{
    let room = out.len();
    match restore(image, 0) {
        Ok(book) => put_book(out, book).min(room),
        Err(_) => {
            put_bytes(out, 0, b"refused 14\n");
            room.min(11)
        }
    }
}
