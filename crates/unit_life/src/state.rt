// A unit's state: how it begins, when it is within rule, and how a call that is accepted takes it on.
ghost use Rattle.std.specs.Prelude.{◌≡◌, IfOk, not, ◌∷◌, []};
ghost use Rattle.octets.specs.Answers.{reason, first};
ghost use Rattle.octets.specs.Refusals.{status_of};
ghost use Rattle.moments.specs.Moments.{in_order};
ghost use Rattle.unit_life.specs.Calls.{within_rule, fresh_state, moved_on};
ghost use Rattle.unit_life.specs.Kinds.{kind_number};

use crate::kinds::Kind;
use moments::in_order;
use octets::choices::either;
use octets::refusals::{Refusal, refuse_if};

// The times are the last accepted one, that of entry into the kind, and that of the last beacon.
// Kept: `kind` is a number, since a stored state may hold any, which `state_of` hands on and `within_rule` judges.
#[derive(Clone, Copy)]
pub struct State {
    pub kind: u8,
    pub last: u32,
    pub entered: u32,
    pub beacon: u32,
}

impl State {
    pub fn fresh(time: u32) -> State
        ensures { result ≡ fresh_state time }
    {
        State {
            kind: State::INITIALIZING,
            last: time,
            entered: time,
            beacon: time,
        }
    }

    // The kind, where the state is within rule. A state comes from whoever stored it, so every call asks this first.
    fn kind_in_rule(self) -> Result<Kind, Refusal>
        ensures refused { status_of result ≡ first (reason (not (within_rule self)) 14 ∷ []) }
        ensures same { IfOk result (λ kind. kind_number kind ≡ self.kind) }
    {
        let kind = Kind::try_from(self.kind)?;
        let ordered = match kind {
            Kind::Discovery | Kind::Joining | Kind::Recovery => in_order(self.entered, self.last),
            Kind::Normal => in_order(self.beacon, self.last),
            Kind::Initializing | Kind::Manager | Kind::Stopped => true,
        };
        refuse_if(!ordered, Refusal::Rule)?;
        Ok(kind)
    }

    // What every call at a time asks of the state: 14, then 8.
    pub(crate) fn kind_at(self, time: u32) -> Result<Kind, Refusal>
        ensures refused { status_of result ≡ first (reason (not (within_rule self)) 14 ∷ reason (not (in_order self.last time)) 8 ∷ []) }
        ensures same { IfOk result (λ kind. kind_number kind ≡ self.kind) }
    {
        let kind = self.kind_in_rule()?;
        refuse_if(!in_order(self.last, time), Refusal::Earlier)?;
        Ok(kind)
    }

    // The state that goes to a kind: a change of it is an entry, and entry into Normal counts as a beacon.
    #[tactic(auto, unfolding(crate::specs::Calls::moved_on))]
    pub(crate) fn moved_on(self, to: Kind, heard: bool, time: u32) -> State
        ensures { result ≡ moved_on self (kind_number to) heard time }
    {
        let kind = to as u8;
        let changed = kind != self.kind;
        let beacon = (heard & !changed) | (changed & (to == Kind::Normal));
        State {
            kind,
            last: time,
            entered: either(changed, time, self.entered),
            beacon: either(beacon, time, self.beacon),
        }
    }
}
