// A member book of 308 bytes, kept by the caller: made of a plan, a member heard or gone, and its schedule.
ghost use Rattle.std.specs.Prelude.{◌≡◌};
ghost use Rattle.octets.specs.Calls.{write_left};
ghost use Rattle.c_book.specs.BookCalls.{book_left, fresh_call, heard_call, leave_call, schedule_call};

// Makes the book of a plan, with the manager in row 0 and this time as last accepted.
#[unsafe(no_mangle)]
pub extern "C" fn braidlark_book_fresh(book: &mut [u8], plan: &[u8], time: u32) -> u8
    ensures { book_left result book.new ≡ fresh_call book.old plan.now time }
{
    c_book::book_calls::braidlark_book_fresh(book, plan, time)
}

// Renews a live member's time.
#[unsafe(no_mangle)]
pub extern "C" fn braidlark_heard(book: &mut [u8], unit: u16, time: u32) -> u8
    ensures { book_left result book.new ≡ heard_call book.old unit time }
{
    c_book::book_calls::braidlark_heard(book, unit, time)
}

// Frees a live member's row and slots.
#[unsafe(no_mangle)]
pub extern "C" fn braidlark_leave(book: &mut [u8], unit: u16, time: u32) -> u8
    ensures { book_left result book.new ≡ leave_call book.old unit time }
{
    c_book::book_calls::braidlark_leave(book, unit, time)
}

// Writes a live member's schedule at a hop, one byte a slot, and says how many slots there are.
#[unsafe(no_mangle)]
pub extern "C" fn braidlark_schedule(
    book: &[u8],
    unit: u16,
    hop: u32,
    time: u32,
    out: &mut [u8],
    written: &mut u32,
) -> u8
    ensures { write_left result out.new written.new ≡ schedule_call book.now unit hop time out.old written.old }
{
    c_book::book_calls::braidlark_schedule(book, unit, hop, time, out, written)
}
