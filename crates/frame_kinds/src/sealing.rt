// The checksum of a frame.
ghost use Rattle.std.specs.Prelude.{◌≡◌, take, set};
ghost use Rattle.octets.specs.Sums.{xors};

use octets::sums::xor_of;

// Writes the XOR of so many bytes right behind them.
pub fn seal(out: &mut [u8], end: usize)
    ensures { out.new ≡ set out.old end (xors 0 (take end out.old)) }
{
    if out.len() <= end {
        return;
    }
    let sum = xor_of(out, end);
    out[end] = sum;
}
