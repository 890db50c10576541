// A frame shown as a list of numbers, its type first.
ghost use Rattle.std.specs.Prelude.{◌≡◌, ◌≤◌, length};
ghost use Rattle.std.proofs.lemmas.List.Edits.{sets};
ghost use Rattle.octets.specs.Numbers.{num};
ghost use Rattle.octets.specs.Refusals.{status_of};
ghost use Rattle.frames.specs.Listed.{show_refusal, shown};
ghost use Rattle.frame_reading.specs.Seen.{seen_width, seen_fields};

use crate::reading::refusal;
use frames::layouts::layout_of;
use octets::refusals::{Refusal, refuse_if};
use octets::stored::Stored;

// The number in one byte, in two or in four.
fn number(s: &[u8], at: usize, width: u8) -> u32
    ensures { result ≡ num (seen_width width) s.now at }
{
    match width {
        1 => u32::from(u8::read(s, at)),
        2 => u32::from(u16::read(s, at)),
        _ => u32::read(s, at),
    }
}

// The numbers of a layout, from the frame's first byte on.
// Kept: tried as `out.iter_mut().zip(widths)`: the invariant of this loop did not fit it, and its proof did not close at once.
fn put_numbers(s: &[u8], widths: &[u8], out: &mut [u32])
    requires { (length widths.now ≤ length out.old) × (length widths.now ≤ 15) }
    ensures { out.new ≡ sets out.old 0 (seen_fields widths.now s.now 0) }
{
    let mut place: usize = 0;
    for (k, width) in widths.iter().enumerate() {
        out[k] = number(s, place, *width);
        place += usize::from(*width);
    }
}

// Shows a frame of any kind in the buffer, from its start; refused, it leaves the buffer as it was.
pub fn show(s: &[u8], out: &mut [u32]) -> Result<(), Refusal>
    ensures { (status_of result ≡ show_refusal s.now (length out.old)) × (out.new ≡ shown s.now out.old) }
{
    refusal(s)?;
    let layout = layout_of(u8::read(s, 0));
    let widths = layout.widths;
    let count = layout.count as usize;
    refuse_if(out.len() < count, Refusal::Room)?;
    put_numbers(s, &widths[..count], out);
    Ok(())
}
