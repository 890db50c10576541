// Frames: one call reads any kind, one writes any, its fields as a list of numbers with the type first.
ghost use Rattle.std.specs.Prelude.{◌≡◌};
ghost use Rattle.octets.specs.Calls.{write_left};
ghost use Rattle.c_frames.specs.FrameCalls.{read_call, read_left, write_call};

// Reads a frame: its numbers, and where the bytes behind its fields start and how many they are.
#[unsafe(no_mangle)]
pub extern "C" fn braidlark_read(
    frame: &[u8],
    fields: &mut [u32],
    part_place: &mut u32,
    part_length: &mut u32,
) -> u8
    ensures { read_left result fields.new part_place.new part_length.new ≡ read_call frame.now fields.old part_place.old part_length.old }
{
    c_frames::frame_calls::braidlark_read(frame, fields, part_place, part_length)
}

// Writes the frame with these numbers and these bytes behind them, and says how many bytes it has.
#[unsafe(no_mangle)]
pub extern "C" fn braidlark_write(
    fields: &[u32],
    part: &[u8],
    out: &mut [u8],
    written: &mut u32,
) -> u8
    ensures { write_left result out.new written.new ≡ write_call fields.now part.now out.old written.old }
{
    c_frames::frame_calls::braidlark_write(fields, part, out, written)
}
