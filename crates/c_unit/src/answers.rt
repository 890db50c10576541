// The end of a call that answers a value: it goes to the caller's place, and a refusal leaves what stood there.
ghost use Rattle.std.specs.Prelude.{◌≡◌};
ghost use Rattle.octets.specs.Refusals.{status_of, held_after};

use octets::refusals::Refusal;

pub(crate) fn answer<T: Copy>(place: &mut T, given: Result<T, Refusal>) -> u8
    ensures status { result ≡ status_of given }
    ensures place { place.new ≡ held_after place.old given }
{
    match given {
        Ok(value) => {
            *place = value;
            0
        }
        Err(refusal) => refusal.number(),
    }
}
