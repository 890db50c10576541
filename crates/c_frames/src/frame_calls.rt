// Frames: one call reads any kind, one writes any, its fields as a list of numbers with the type first.
ghost use Rattle.std.specs.Prelude.{◌≡◌};
ghost use Rattle.octets.specs.Calls.{write_left};
ghost use Rattle.c_frames.specs.FrameCalls.{read_call, read_left, write_call};

use frame_reading::numbers::show;
use frame_writing::numbers::write;
use frames::layouts::layout_of;
use octets::stored::Stored;

// Reads a frame: its numbers, and where the bytes behind its fields start and how many they are.
pub fn braidlark_read(
    frame: &[u8],
    fields: &mut [u32],
    part_place: &mut u32,
    part_length: &mut u32,
) -> u8
    ensures { read_left result fields.new part_place.new part_length.new ≡ read_call frame.now fields.old part_place.old part_length.old }
{
    if let Err(refusal) = show(frame, fields) {
        return refusal.number();
    }
    let place = layout_of(u8::read(frame, 0)).head;
    *part_place = place as u32;
    *part_length = (frame.len() - 1 - place as usize) as u32;
    0
}

// Writes the frame with these numbers and these bytes behind them, and says how many bytes it has.
pub fn braidlark_write(fields: &[u32], part: &[u8], out: &mut [u8], written: &mut u32) -> u8
    ensures { write_left result out.new written.new ≡ write_call fields.now part.now out.old written.old }
{
    match write(fields, part, out) {
        Ok(size) => {
            *written = size as u32;
            0
        }
        Err(refusal) => refusal.number(),
    }
}
