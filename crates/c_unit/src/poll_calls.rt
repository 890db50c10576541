// A unit's poll of election messages, kept by the caller as 75 bytes: made, a message heard, and who is to be the manager.
ghost use Rattle.std.specs.Prelude.{◌≡◌};
ghost use Rattle.unit_poll.specs.PollBytes.{poll_left, fresh_call, hear_call, winner_left, winner_call};

use crate::answers::answer;
use octets::refusals::status;
use unit_poll::poll::{fresh_in, hear_in, winner_in};

// Makes the poll of a unit that has heard none.
pub fn braidlark_poll_fresh(poll: &mut [u8], own: u16, priority: u8) -> u8
    ensures { poll_left result poll.new ≡ fresh_call poll.old own priority }
{
    status(fresh_in(poll, own, priority))
}

// Hears an election message: it stands as its unit's last one.
pub fn braidlark_poll_hear(poll: &mut [u8], frame: &[u8]) -> u8
    ensures { poll_left result poll.new ≡ hear_call poll.old frame.now }
{
    status(hear_in(poll, frame))
}

// Names the unit that is to be the manager.
#[tactic(auto, unfolding(unit_poll::specs::PollBytes::winner_call))]
pub fn braidlark_poll_winner(poll: &[u8], winner: &mut u16) -> u8
    ensures { winner_left result winner.new ≡ winner_call poll.now winner.old }
{
    answer(winner, winner_in(poll))
}
