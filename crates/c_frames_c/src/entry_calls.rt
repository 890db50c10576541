// The entries of a routing update, one a call: the caller keeps the frame's bytes and the position.
ghost use Rattle.std.specs.Prelude.{◌≡◌};
ghost use Rattle.c_frames.specs.EntryCalls.{entry_left, entry_call};

// The entry of an update at a position, counted from 0, and the next position. At the end no entry is put, and the next position is 0.
#[unsafe(no_mangle)]
pub extern "C" fn braidlark_entry(
    frame: &[u8],
    position: u32,
    entry: &mut [u32],
    next: &mut u32,
) -> u8
    ensures { entry_left result entry.new next.new ≡ entry_call frame.now position entry.old next.old }
{
    c_frames::entry_calls::braidlark_entry(frame, position, entry, next)
}
