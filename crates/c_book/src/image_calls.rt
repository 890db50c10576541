// The stored image of a book of 308 bytes: written at a time, and restored at one.
ghost use Rattle.std.specs.Prelude.{◌≡◌};
ghost use Rattle.octets.specs.Calls.{write_left};
ghost use Rattle.c_book.specs.BookCalls.{book_left, image_call, restore_call};

use crate::book_calls::{keep, tell};
use book_bytes::books::{BOOK_SIZE, book_of};
use book_image::restoring::restore;
use book_image::writing::write_image;
use octets::refusals::{Refusal, status};

// Writes the image of a book, its live members alone, and says how many bytes it has.
#[tactic(auto, unfolding(crate::specs::BookCalls::image_call))]
pub fn braidlark_image(book: &[u8], time: u32, out: &mut [u8], written: &mut u32) -> u8
    ensures { write_left result out.new written.new ≡ image_call book.now time out.old written.old }
{
    if book.len() != BOOK_SIZE {
        return Refusal::Rule.number();
    }
    status(tell(write_image(book_of(book), time, out), written))
}

// Makes the book of an image, every time the given one.
#[tactic(auto, unfolding(crate::specs::BookCalls::restore_call))]
pub fn braidlark_restore(book: &mut [u8], image: &[u8], time: u32) -> u8
    ensures { book_left result book.new ≡ restore_call book.old image.now time }
{
    status(keep(book, restore(image, time)))
}
