// Document 01's table of the seven states: which event leads where, and which time runs out into what.
ghost use Rattle.std.specs.Prelude.{◌≡◌};
ghost use Rattle.unit_life.specs.Kinds.{kind_number, event_number, leads_to};
ghost use Rattle.unit_life.specs.States.{kind_after, tick_to};

use crate::kinds::{Event, Kind};
use crate::state::State;

// The kind that an event leads to, if it is listed. A beacon in Joining or in Normal leads nowhere else: it only records its time.
#[tactic(auto, unfolding(crate::specs::States::kind_after))]
pub(crate) fn kind_after(kind: Kind, event: Event) -> Option<Kind>
    ensures { leads_to result ≡ kind_after (kind_number kind) (event_number event) }
{
    match (kind, event) {
        (Kind::Initializing, Event::Ready) => Some(Kind::Discovery),
        (Kind::Initializing, Event::Failed) => Some(Kind::Stopped),
        (Kind::Discovery, Event::Beacon) => Some(Kind::Joining),
        (Kind::Discovery, Event::Fault) => Some(Kind::Recovery),
        (Kind::Joining, Event::Accepted) => Some(Kind::Normal),
        (Kind::Joining, Event::Denied) => Some(Kind::Discovery),
        (Kind::Joining, Event::Beacon) => Some(Kind::Joining),
        (Kind::Normal, Event::Elected) => Some(Kind::Manager),
        (Kind::Normal, Event::Beacon) => Some(Kind::Normal),
        (Kind::Manager, Event::RoleChange) => Some(Kind::Normal),
        (Kind::Manager, Event::Fault) => Some(Kind::Recovery),
        (Kind::Recovery, Event::Recovered) => Some(Kind::Discovery),
        _ => None,
    }
}

// The kind after a tick, `age` ms after entry and `silence` ms after the last beacon. Three superframes of any length that
// a caller names may be more than 32 bits hold.
#[tactic(auto, unfolding(crate::specs::States::tick_to))]
pub(crate) fn tick_to(kind: Kind, age: u32, silence: u32, superframe_ms: u32) -> Kind
    ensures { kind_number result ≡ tick_to (kind_number kind) age silence superframe_ms }
{
    let three = 3 * u64::from(superframe_ms);
    match kind {
        Kind::Normal if three < u64::from(silence) => Kind::Recovery,
        Kind::Discovery if State::DISCOVERY_MS <= age => Kind::Manager,
        Kind::Joining if State::JOINING_MS <= age => Kind::Recovery,
        Kind::Recovery if State::RECOVERY_MS <= age => Kind::Stopped,
        _ => kind,
    }
}
