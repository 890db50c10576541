// A drift as its 32 bits, and how much of it a step takes away, modulo 2^32 like all that is taken from an offset.
ghost use Rattle.std.specs.Prelude.{◌≡◌};
ghost use Rattle.unit_clock.specs.Clock.{signed, wrapped, correction};

// A drift over the large one is taken away whole, one over the small one by half.
const LARGE_MS: u32 = 100;

const SMALL_MS: u32 = 50;

// All of a large drift, half of a middling one, rounded toward zero, nothing of a small one.
pub(crate) fn correction(bits: u32) -> u32
    ensures { result ≡ wrapped (correction (signed bits)) }
{
    let drift = bits.cast_signed();
    let size = drift.unsigned_abs();
    if LARGE_MS < size {
        bits
    } else if SMALL_MS < size {
        (drift / 2).cast_unsigned()
    } else {
        0
    }
}
