// What every writer does once it has its numbers.
ghost use Rattle.std.specs.Prelude.{◌≡◌, ◌++◌, ◌≤◌, length};
ghost use Rattle.octets.specs.Layouts.{total, bytes};
ghost use Rattle.octets.specs.Refusals.{status_of};
ghost use Rattle.octets.specs.Told.{wrote};
ghost use Rattle.frame_kinds.specs.Shape.{sealed};
ghost use Rattle.frame_kinds.specs.Writing.{write_refusal, writing};
ghost use Rattle.frame_writing.specs.Sizes.{size_refusal};

use frame_kinds::sealing::seal;
use octets::layouts::put_layout;
use octets::parts::put_bytes;
use octets::refusals::{Refusal, refuse_if};

// Why a frame has no such size: `due` is the length that its count gives.
#[tactic(auto, unfolding(crate::specs::Sizes::size_refusal))]
pub(crate) fn sized(due: usize, size: usize) -> Result<(), Refusal>
    ensures { status_of result ≡ size_refusal due size }
{
    refuse_if((size != due) | (255 < size), Refusal::Length)
}

// Why a frame of this size is not written: `room` is the buffer's.
#[tactic(auto, unfolding(crate::specs::Sizes::size_refusal, frame_kinds::specs::Writing::write_refusal))]
fn why_unwritten(due: usize, size: usize, good: bool, room: usize) -> Result<(), Refusal>
    ensures { status_of result ≡ write_refusal due size good room }
{
    sized(due, size)?;
    refuse_if(!good, Refusal::Field)?;
    refuse_if(room < size, Refusal::Room)
}

// A frame to be written: its numbers, the type first, in so many bytes each, `head` in all, and the bytes behind them.
#[derive(Clone, Copy)]
pub(crate) struct Draft<'a> {
    pub(crate) head: usize,
    pub(crate) widths: &'a [u8],
    pub(crate) values: &'a [u32],
    pub(crate) part: &'a [u8],
    ghost laid: { (length widths.now ≡ length values.now) × (total widths.now ≡ head) × (head ≤ 64) },
}

impl Draft<'_> {
    // Writes the frame, with its checksum.
    pub(crate) fn emit(self, due: usize, good: bool, out: &mut [u8]) -> Result<usize, Refusal>
        ensures { wrote result out.new ≡ writing due good (sealed (bytes self.entry.widths.now self.entry.values.now ++ self.entry.part.now)) out.old }
    {
        let end = self.head + self.part.len();
        why_unwritten(due, end + 1, good, out.len())?;
        put_layout(out, 0, self.widths, self.values);
        put_bytes(out, self.head, self.part);
        seal(out, end);
        Ok(end + 1)
    }
}
