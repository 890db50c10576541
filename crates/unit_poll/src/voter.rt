// The last election message of one unit in a poll: the unit, and its priority.
ghost use Rattle.std.specs.Prelude.{◌≡◌, ◌+◌, ◌*◌};
ghost use Rattle.std.proofs.lemmas.List.Edits.{sets};
ghost use Rattle.octets.specs.Layouts.{bytes};
ghost use Rattle.unit_poll.specs.Voters.{voter, beats, better};
ghost use Rattle.unit_poll.specs.Places.{ok_voter};
ghost use Rattle.unit_poll.specs.PollBytes.{voter_widths, voter_values, voter_at};

use frame_requests::Election;
use octets::addresses::is_address;
use octets::choices::either;
use octets::stored::Stored;

#[derive(Clone, Copy)]
pub struct Voter {
    pub unit: u16,
    pub priority: u8,
}

impl From<Election> for Voter {
    fn from(message: Election) -> Voter
        ensures { result ≡ voter message.node message.priority }
    {
        Voter {
            unit: message.node,
            priority: message.priority,
        }
    }
}

impl Voter {
    // Whether it goes before another: a higher priority, or the same and a lower address.
    pub fn beats(self, other: Voter) -> bool
        ensures { result ≡ beats self other }
    {
        (other.priority, self.unit) < (self.priority, other.unit)
    }

    // The one of two that goes before the other; the first where neither does.
    pub(crate) fn better(self, other: Voter) -> Voter
        ensures { result ≡ better self other }
    {
        either(other.beats(self), other, self)
    }

    // Whether it may stand before one of this unit, 0 for none, in the poll of the unit `own`.
    // Kept: 0 for none, as in the bytes and in `ok_voter`; an `Option` would have to ask that it holds no 0.
    pub(crate) fn ordered(self, own: u16, after: u16) -> bool
        ensures { result ≡ ok_voter own self after }
    {
        if self.unit == 0 {
            return (self.priority == 0) & (after == 0);
        }
        (is_address(self.unit) & !(self.unit == own)) & ((after == 0) | (self.unit < after))
    }

    // The one at a place of a poll's bytes, counted from 0.
    #[tactic(auto, unfolding(crate::specs::PollBytes::voter_at))]
    pub(crate) fn at(s: &[u8], place: u8) -> Voter
        ensures { result ≡ voter_at s.now place }
    {
        let start = 3 + 3 * (place as usize);
        Voter {
            unit: u16::read(s, start),
            priority: u8::read(s, start + 2),
        }
    }

    // Its bytes, at a place.
    pub(crate) fn put(self, out: &mut [u8], place: u8)
        ensures { out.new ≡ sets out.old (3 + 3 * place) (bytes voter_widths (voter_values self)) }
    {
        let start = 3 + 3 * (place as usize);
        self.unit.store(out, start);
        self.priority.store(out, start + 2);
    }
}
