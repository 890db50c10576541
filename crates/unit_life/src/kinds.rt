// The seven kinds of a state and the nine events, each with its number in document 01.
ghost use Rattle.unit_life.specs.Kinds.{SaysKind, SaysEvent};

use crate::state::State;
use octets::refusals::Refusal;

#[derive(Clone, Copy, Debug, PartialEq, Eq)]
pub(crate) enum Kind {
    Initializing = 0,
    Discovery = 1,
    Joining = 2,
    Normal = 3,
    Manager = 4,
    Recovery = 5,
    Stopped = 6,
}

#[derive(Clone, Copy, Debug, PartialEq, Eq)]
pub(crate) enum Event {
    Ready = 0,
    Failed = 1,
    Beacon = 2,
    Accepted = 3,
    Denied = 4,
    Fault = 5,
    Elected = 6,
    RoleChange = 7,
    Recovered = 8,
}

// A stored state may hold any number: one that is no kind is out of rule.
impl TryFrom<u8> for Kind {
    type Error = Refusal;

    ghost try_from_gives = { SaysKind };

    fn try_from(number: u8) -> Result<Self, Refusal> {
        match number {
            State::INITIALIZING => Ok(Kind::Initializing),
            State::DISCOVERY => Ok(Kind::Discovery),
            State::JOINING => Ok(Kind::Joining),
            State::NORMAL => Ok(Kind::Normal),
            State::MANAGER => Ok(Kind::Manager),
            State::RECOVERY => Ok(Kind::Recovery),
            State::STOPPED => Ok(Kind::Stopped),
            _ => Err(Refusal::Rule),
        }
    }
}

// A caller may name any number: one that is no event is not allowed in any kind.
impl TryFrom<u8> for Event {
    type Error = Refusal;

    ghost try_from_gives = { SaysEvent };

    fn try_from(number: u8) -> Result<Self, Refusal> {
        match number {
            State::READY => Ok(Event::Ready),
            State::FAILED => Ok(Event::Failed),
            State::BEACON => Ok(Event::Beacon),
            State::ACCEPTED => Ok(Event::Accepted),
            State::DENIED => Ok(Event::Denied),
            State::FAULT => Ok(Event::Fault),
            State::ELECTED => Ok(Event::Elected),
            State::ROLE_CHANGE => Ok(Event::RoleChange),
            State::RECOVERED => Ok(Event::Recovered),
            _ => Err(Refusal::Event),
        }
    }
}
