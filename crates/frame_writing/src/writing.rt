// Writing a frame: what its reader would refuse is refused, then a buffer that is too short.
ghost use Rattle.std.specs.Prelude.{◌≡◌, ◌≤◌, ◌<◌, length, get_or};
ghost use Rattle.octets.specs.Told.{wrote};
ghost use Rattle.frames.specs.Layout.{widths_of};
ghost use Rattle.frames.specs.Told.{write_frame};
ghost use Rattle.frame_writing.specs.Handed.{write_answer};
ghost use Rattle.frame_writing.specs.Typed.{write_typed};

use crate::emitting::Draft;
use frames::answers::Frame;
use frames::layouts::layout_of;
use octets::refusals::Refusal;

// The frame, with these bytes behind its fields: as many as the payload or the entries have by its count, none where its kind has none.
pub fn write(frame: Frame, part: &[u8], out: &mut [u8]) -> Result<usize, Refusal>
    ensures { wrote result out.new ≡ write_frame frame part.now out.old }
{
    match frame {
        Frame::Data(f) => write_as(usize::from(f.count), f.good(), &f.numbers(), part, out),
        Frame::JoinRequest(f) => write_as(0, f.good(), &f.numbers(), part, out),
        Frame::JoinResponse(f) => write_as(0, f.good(), &f.numbers(), part, out),
        Frame::SlotRequest(f) => write_as(0, f.good(), &f.numbers(), part, out),
        Frame::DiscoveryRequest(f) => write_as(0, f.good(), &f.numbers(), part, out),
        Frame::DiscoveryResponse(f) => write_as(0, f.good(), &f.numbers(), part, out),
        Frame::Election(f) => write_as(0, f.good(), &f.numbers(), part, out),
        Frame::Update(f) => write_as(
            10 * usize::from(f.count),
            f.good(part),
            &f.numbers(),
            part,
            out,
        ),
        Frame::Beacon(f) => write_as(0, f.good(), &f.numbers(), part, out),
        Frame::ShortBeacon(f) => write_as(0, f.good(), &f.numbers(), part, out),
    }
}

// What was read, written with these bytes: a refusal stays that refusal, and then nothing is written.
pub fn write_read(
    answer: Result<Frame, Refusal>,
    part: &[u8],
    out: &mut [u8],
) -> Result<usize, Refusal>
    ensures { wrote result out.new ≡ write_answer answer part.now out.old }
{
    write(answer?, part, out)
}

// The numbers of a frame, its type first, with so many bytes behind its fields by its count.
fn write_as(
    extent: usize,
    good: bool,
    numbers: &[u32],
    part: &[u8],
    out: &mut [u8],
) -> Result<usize, Refusal>
    requires { (length numbers.now ≡ length (widths_of (get_or numbers.now 0 0))) × (extent ≤ 2550) × (0 < length numbers.now) × (get_or numbers.now 0 0 < 256) }
    ensures { wrote result out.new ≡ write_typed (get_or numbers.now 0 0) extent good numbers.now part.now out.old }
{
    let layout = layout_of(numbers[0] as u8);
    let head = layout.head as usize;
    let count = layout.count as usize;
    let widths = layout.widths;
    let draft = Draft {
        head,
        widths: &widths[..count],
        values: numbers,
        part,
    };
    draft.emit(head + 1 + extent, good, out)
}
