// Why bytes are no frame of a kind: document 01's first reason that applies.
ghost use Rattle.std.specs.Prelude.{◌≡◌};
ghost use Rattle.octets.specs.Refusals.{number_of, status_of};
ghost use Rattle.frame_kinds.specs.Reading.{misfit, read_refusal, unknown_refusal};

use octets::choices::either;
use octets::refusals::{Refusal, refuse_if};
use octets::stored::Stored;
use octets::sums::xor_of;

// Whether bytes are none or too many for a frame.
fn misfit(s: &[u8]) -> bool
    ensures { result ≡ misfit s.now }
{
    let n = s.len();
    (n == 0) | (255 < n)
}

// The tests that every kind shares: its type, the length that its count gives, the checksum, and whether its fields are good.
// Kept: each kind calls this with its own type and length. A trait of the kinds would give one `refusal`, and one `write_as` over it in frame_writing. Its
// `refusal` was tried: it proves, and makes each kind 13 lines longer. The match on `Frame` would still call `write_as` ten times, once for each kind.
// Kept: a type is a number, here and in the matches on it, as it is a byte of a frame that may be any: `refusal_typed` and `widths_of` are of all numbers.
#[tactic(auto, unfolding(crate::specs::Reading::read_refusal, crate::specs::Reading::is_sealed))]
pub fn refused(s: &[u8], code: u8, size: usize, good: bool) -> Result<(), Refusal>
    ensures { status_of result ≡ read_refusal code size good s.now }
{
    let n = s.len();
    refuse_if(misfit(s), Refusal::Length)?;
    refuse_if(u8::read(s, 0) != code, Refusal::WrongType)?;
    refuse_if(n != size, Refusal::Length)?;
    refuse_if(xor_of(s, n - 1) != u8::read(s, n - 1), Refusal::Checksum)?;
    refuse_if(!good, Refusal::Field)
}

// Bytes of a type that no kind has.
pub fn unknown(s: &[u8]) -> Refusal
    ensures { number_of result ≡ unknown_refusal s.now }
{
    either(misfit(s), Refusal::Length, Refusal::WrongType)
}
