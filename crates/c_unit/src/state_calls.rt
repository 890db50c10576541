// A unit's state: 13 bytes that the caller keeps, made fresh, and taken on by an event or a tick.
ghost use Rattle.std.specs.Prelude.{◌≡◌};
ghost use Rattle.octets.specs.Refusals.{status_of};
ghost use Rattle.unit_life.specs.Outcomes.{lived_by};
ghost use Rattle.unit_life.specs.StateBytes.{state_in};
ghost use Rattle.c_unit.specs.StateCalls.{state_left, leaves, fresh_call, event_call, tick_call};

use octets::refusals::{Refusal, refuse_if, status};
use unit_life::state::State;
use unit_life::state_bytes::{put_state, state_of};

const STATE_SIZE: usize = 13;

// The end of each call: the next state goes to the buffer, unless it is no state's or the call was refused.
fn keep(state: &mut [u8], lived: Result<State, Refusal>) -> Result<(), Refusal>
    ensures { state_left (status_of result) state.new ≡ leaves state.old (lived_by (state_in state.old) lived) }
{
    refuse_if(state.len() != STATE_SIZE, Refusal::Rule)?;
    put_state(state, lived?);
    Ok(())
}

// A fresh state, whose three times are the given one.
#[tactic(auto, unfolding(crate::specs::StateCalls::fresh_call))]
pub fn braidlark_state_fresh(state: &mut [u8], time: u32) -> u8
    ensures { state_left result state.new ≡ fresh_call state.old time }
{
    status(keep(state, Ok(State::fresh(time))))
}

// The event with this number, at a time.
#[tactic(auto, unfolding(crate::specs::StateCalls::event_call))]
pub fn braidlark_state_event(state: &mut [u8], event: u8, time: u32) -> u8
    ensures { state_left result state.new ≡ event_call state.old event time }
{
    let held = state_of(&state[..]);
    status(keep(state, held.event(event, time)))
}

// A tick at a time, with the superframe's length.
#[tactic(auto, unfolding(crate::specs::StateCalls::tick_call))]
pub fn braidlark_state_tick(state: &mut [u8], superframe_ms: u32, time: u32) -> u8
    ensures { state_left result state.new ≡ tick_call state.old superframe_ms time }
{
    let held = state_of(&state[..]);
    status(keep(state, held.tick(superframe_ms, time)))
}
