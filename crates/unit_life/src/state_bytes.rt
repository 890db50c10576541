// A unit's state as 13 bytes.
ghost use Rattle.std.specs.Prelude.{◌≡◌};
ghost use Rattle.unit_life.specs.StateBytes.{state_in, state_over};

use crate::state::State;
use octets::layouts::put_layout;
use octets::stored::Stored;

// The state that the bytes say, within rule or not.
#[tactic(auto, unfolding(crate::specs::StateBytes::state_in))]
pub fn state_of(s: &[u8]) -> State
    ensures { result ≡ state_in s.now }
{
    State {
        kind: u8::read(s, 0),
        last: u32::read(s, 1),
        entered: u32::read(s, 5),
        beacon: u32::read(s, 9),
    }
}

// The bytes that say the state, from the buffer's start on.
#[tactic(auto, unfolding(crate::specs::StateBytes::state_over))]
pub fn put_state(out: &mut [u8], state: State)
    ensures { out.new ≡ state_over out.old state }
{
    let values = [state.kind as u32, state.last, state.entered, state.beacon];
    put_layout(out, 0, &[1, 4, 4, 4], &values);
}
