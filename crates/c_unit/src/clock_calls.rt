// The clock: the offset that the caller keeps, stepped by a beacon.
ghost use Rattle.std.specs.Prelude.{◌≡◌};
ghost use Rattle.c_unit.specs.ClockCalls.{clock_left, clock_call};

use crate::answers::answer;
use unit_clock::steps::step_by_beacon;

// The step by a beacon's frame that came in at a local time, for a unit of this network.
#[tactic(auto, unfolding(crate::specs::ClockCalls::clock_call))]
pub fn braidlark_clock_step(offset: &mut u32, local_time: u32, network: u16, frame: &[u8]) -> u8
    ensures { clock_left result offset.new ≡ clock_call offset.old local_time network frame.now }
{
    let next = step_by_beacon(*offset, local_time, network, frame);
    answer(offset, next)
}
