// The clock's step, by the two times that a beacon carries, and by the beacon's frame.
ghost use Rattle.std.specs.Prelude.{◌≡◌};
ghost use Rattle.unit_clock.specs.Clock.{corrected, beacon_step_of};
ghost use Rattle.unit_clock.specs.Outcomes.{stepped_by};

use crate::drifts::correction;
use frame_beacons::either::EitherBeacon;
use moments::age;
use octets::refusals::Refusal;

// The step by a beacon that was sent at `original_time` and was `delay` ms under way.
pub fn step(offset: u32, local: u32, original_time: u32, delay: u32) -> u32
    ensures { result ≡ corrected local offset original_time delay }
{
    let here = local.wrapping_add(offset);
    let sent = original_time.wrapping_add(delay);
    offset.wrapping_sub(correction(age(here, sent)))
}

// The next offset, by the frame of a beacon of either kind, for a caller of this network.
#[tactic(auto, unfolding(crate::specs::Clock::beacon_step_of))]
pub fn step_by_beacon(offset: u32, local: u32, network: u16, frame: &[u8]) -> Result<u32, Refusal>
    ensures { stepped_by offset result ≡ beacon_step_of offset local network frame.now }
{
    EitherBeacon::refusal_for(network, frame)?;
    let heard = EitherBeacon::of(frame);
    Ok(step(offset, local, heard.original_time, heard.delay))
}
