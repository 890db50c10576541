// Frames that a manager answers over a book of 308 bytes: a request to join, and a request for slots. Bytes of another number are found out before
// anything is written.
ghost use Rattle.std.specs.Prelude.{◌≡◌};
ghost use Rattle.c_requests.specs.RequestCalls.{request_left, join_call, slot_request_call};

// Lets a unit join, writes a response for each of its slots, and says how many bytes they have.
#[unsafe(no_mangle)]
pub extern "C" fn braidlark_join(
    book: &mut [u8],
    frame: &[u8],
    time: u32,
    out: &mut [u8],
    written: &mut u32,
) -> u8
    ensures { request_left result book.new out.new written.new ≡ join_call book.old frame.now time out.old written.old }
{
    c_requests::request_calls::braidlark_join(book, frame, time, out, written)
}

// Brings a member's slots to what it asks for, as far as there are spare ones, and answers as a join does.
#[unsafe(no_mangle)]
pub extern "C" fn braidlark_slot_request(
    book: &mut [u8],
    frame: &[u8],
    time: u32,
    out: &mut [u8],
    written: &mut u32,
) -> u8
    ensures { request_left result book.new out.new written.new ≡ slot_request_call book.old frame.now time out.old written.old }
{
    c_requests::request_calls::braidlark_slot_request(book, frame, time, out, written)
}
