// Two frames that a unit heard in one slot: which of them it follows.
ghost use Rattle.std.specs.Prelude.{◌≡◌};
ghost use Rattle.unit_choice.specs.Choices.{heard};
ghost use Rattle.c_unit.specs.FollowCalls.{follow_left, follow_call};

use crate::answers::answer;
use unit_choice::choosing::choose;

// Says which of the two is to be followed by a unit of this network, 0 or 1.
#[tactic(auto, unfolding(crate::specs::FollowCalls::follow_call))]
pub fn braidlark_follow(
    first: &[u8],
    first_quality: u8,
    second: &[u8],
    second_quality: u8,
    network: u16,
    which: &mut u8,
) -> u8
    ensures { follow_left result which.new ≡ follow_call (heard first.now first_quality) (heard second.now second_quality) network which.old }
{
    let chosen = choose(network, first, first_quality, second, second_quality);
    answer(which, chosen.map(|chosen| chosen as u8))
}
