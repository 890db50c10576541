// A frame written from a list of numbers, its type first.
ghost use Rattle.std.specs.Prelude.{◌≡◌, ◌++◌, ◌^◌, ◌≤◌, ltb, length, get_or};
ghost use Rattle.octets.specs.Layouts.{total, bytes};
ghost use Rattle.octets.specs.Told.{wrote};
ghost use Rattle.frames.specs.Layout.{layout_of};
ghost use Rattle.frames.specs.Listed.{fitting, extent_of, write_numbers};
ghost use Rattle.frame_writing.specs.Taking.{takes};
ghost use Rattle.frame_kinds.specs.Shape.{sealed};

use crate::emitting::{Draft, sized};
use frame_reading::reading::refusal;
use frames::layouts::{Layout, layout_of};
use octets::refusals::{Refusal, refuse_if};

// The number at a place of a list, 0 past its end.
fn number_at(numbers: &[u32], at: usize) -> u32
    ensures { result ≡ get_or numbers.now at 0 }
{
    numbers.get(at).copied().unwrap_or(0)
}

// Whether a number fits so many bytes.
fn fits(number: u32, width: u8) -> bool
    ensures { result ≡ ltb number (256 ^ width) }
{
    match width {
        0 => number < 1,
        1 => number < 256,
        2 => number < 65536,
        3 => number < 16777216,
        _ => true,
    }
}

// Whether there is a number for each width, and it fits.
// Kept: tried as a test of the lengths, then `widths.iter().zip(numbers).all(..)`: the search closed neither proof.
fn all_fit(widths: &[u8], numbers: &[u32]) -> bool
    ensures { result ≡ fitting widths.now numbers.now 0 }
{
    for (k, width) in widths.iter().enumerate() {
        if numbers.len() <= k {
            return false;
        }
        if !fits(numbers[k], *width) {
            return false;
        }
    }
    true
}

// How many bytes stand behind the fields of the kind of this type, by their numbers.
#[tactic(auto, using(crate::proofs::ListedLaws::cond_same), unfolding(frames::specs::Listed::extent_of))]
fn extent(code: u8, numbers: &[u32]) -> usize
    ensures { (result ≡ extent_of code numbers.now) × (result ≤ 42949672950) }
{
    match code {
        0x11 => number_at(numbers, 5) as usize,
        0x31 => 10 * (number_at(numbers, 2) as usize),
        _ => 0,
    }
}

// Whether the reader takes this frame, written apart.
fn taken(draft: Draft) -> bool
    ensures { result ≡ takes (sealed (bytes draft.entry.widths.now draft.entry.values.now ++ draft.entry.part.now)) }
{
    let mut apart = [0u8; 255];
    let size = draft.head + draft.part.len() + 1;
    match draft.emit(size, true, &mut apart) {
        Ok(n) => refusal(&apart[..n]).is_ok(),
        Err(_) => false,
    }
}

// Writes the numbers as a frame of the kind that has their type.
fn listed(
    code: u8,
    layout: Layout,
    numbers: &[u32],
    part: &[u8],
    out: &mut [u8],
) -> Result<usize, Refusal>
    requires { (layout ≡ layout_of code) × (layout.count ≡ 0 → ⊥) × (get_or numbers.now 0 0 ≡ code) }
    ensures { wrote result out.new ≡ write_numbers numbers.now part.now out.old }
{
    let count = layout.count as usize;
    let head = layout.head as usize;
    let widths = layout.widths;
    let widths = &widths[..count];
    let due = head + 1 + extent(code, numbers);
    sized(due, head + part.len() + 1)?;
    refuse_if(!all_fit(widths, numbers), Refusal::Field)?;
    let draft = Draft {
        head,
        widths,
        values: &numbers[..count],
        part,
    };
    draft.emit(due, taken(draft), out)
}

// Writes the frame that the numbers, its type first, and the bytes behind them are.
pub fn write(numbers: &[u32], part: &[u8], out: &mut [u8]) -> Result<usize, Refusal>
    ensures { wrote result out.new ≡ write_numbers numbers.now part.now out.old }
{
    refuse_if(numbers.is_empty(), Refusal::Length)?;
    let Ok(code) = u8::try_from(numbers[0]) else {
        return Err(Refusal::WrongType);
    };
    let layout = layout_of(code);
    refuse_if(layout.count == 0, Refusal::WrongType)?;
    listed(code, layout, numbers, part, out)
}
