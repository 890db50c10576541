// The choice between two frames that were heard in one slot: which of the two, and as that one of the two slices.
ghost use Rattle.std.specs.Prelude.{◌≡◌, IfOk};
ghost use Rattle.octets.specs.Parts.{lent};
ghost use Rattle.octets.specs.Refusals.{status_of};
ghost use Rattle.unit_choice.specs.Choices.{heard, rank_of, ranks_above, chosen_of, handed_back};
ghost use Rattle.unit_choice.specs.Outcomes.{ranked, chosen_by};

use frame_beacons::either::{EitherBeacon, hop_in};
use octets::refusals::Refusal;

#[derive(Clone, Copy, Debug, PartialEq, Eq)]
pub enum Which {
    First = 0,
    Second = 1,
}

// What of a beacon for this unit counts in the choice: its hop, and how well it was heard.
#[derive(Clone, Copy)]
struct Standing {
    hop: u8,
    quality: u8,
}

impl Standing {
    #[tactic(auto, unfolding(crate::specs::Choices::rank_of))]
    fn of(network: u16, frame: &[u8], quality: u8) -> Result<Standing, Refusal>
        ensures refused { status_of result ≡ (rank_of network (heard frame.now quality)).refused }
        ensures ranked { IfOk result (λ s. ranked s ≡ rank_of network (heard frame.now quality)) }
    {
        EitherBeacon::refusal_for(network, frame)?;
        Ok(Standing {
            hop: hop_in(frame),
            quality,
        })
    }

    // Whether it is to be followed rather than the other.
    // Kept: no derived order, since the lower hop but the higher quality goes first.
    fn ranks_above(self, other: Standing) -> bool
        ensures { result ≡ ranks_above (ranked self) (ranked other) }
    {
        let nearer = self.hop < other.hop;
        let clearer = (self.hop == other.hop) & (other.quality < self.quality);
        nearer | clearer
    }
}

// The frame to follow; where neither will do, the first's own refusal.
#[tactic(auto, unfolding(crate::specs::Choices::chosen_of))]
pub fn choose(
    network: u16,
    first: &[u8],
    first_quality: u8,
    second: &[u8],
    second_quality: u8,
) -> Result<Which, Refusal>
    ensures { chosen_by result ≡ chosen_of network (heard first.now first_quality) (heard second.now second_quality) }
{
    let one = Standing::of(network, first, first_quality);
    let other = Standing::of(network, second, second_quality);
    match (one, other) {
        (Ok(one), Ok(other)) if other.ranks_above(one) => Ok(Which::Second),
        (Ok(_), _) => Ok(Which::First),
        (Err(_), Ok(_)) => Ok(Which::Second),
        (Err(refusal), Err(_)) => Err(refusal),
    }
}

// The frame to follow, as the one of the two slices that it is; nothing of the first where neither will do.
#[tactic(auto, unfolding(crate::specs::Choices::handed_back))]
pub fn follow<'a>(
    network: u16,
    first: &'a [u8],
    first_quality: u8,
    second: &'a [u8],
    second_quality: u8,
) -> &'a [u8]
    ensures { lent result ≡ handed_back network (lent first.entry) first_quality (lent second.entry) second_quality }
{
    match choose(network, first, first_quality, second, second_quality) {
        Ok(Which::First) => first,
        Ok(Which::Second) => second,
        Err(_) => &first[..0],
    }
}
