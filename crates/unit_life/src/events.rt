// The events of a unit's life, by number and by name.
ghost use Rattle.std.specs.Prelude.{◌≡◌};
ghost use Rattle.unit_life.specs.Calls.{on_event};
ghost use Rattle.unit_life.specs.Kinds.{event_number};
ghost use Rattle.unit_life.specs.Outcomes.{lived_by};
ghost use Rattle.unit_life.specs.States.{ready, failed, beacon, join_accepted, join_denied, fault, elected, role_change, recovered};

use crate::kinds::Event;
use crate::state::State;
use crate::table::kind_after;
use octets::refusals::Refusal;

impl State {
    // Kept: a number, since a caller may name any: one that is no event is refused as an event that is not listed, once the state and the time are judged.
    #[tactic(auto, using(crate::proofs::TableLaws::unlisted), unfolding(crate::specs::Calls::on_event))]
    pub fn event(self, number: u8, time: u32) -> Result<State, Refusal>
        ensures { lived_by self result ≡ on_event self number time }
    {
        match Event::try_from(number) {
            Ok(event) => self.met(event, time),
            Err(refusal) => {
                self.kind_at(time)?;
                Err(refusal)
            }
        }
    }

    #[tactic(auto, unfolding(crate::specs::Calls::on_event))]
    fn met(self, event: Event, time: u32) -> Result<State, Refusal>
        ensures { lived_by self result ≡ on_event self (event_number event) time }
    {
        let kind = self.kind_at(time)?;
        let to = kind_after(kind, event).ok_or(Refusal::Event)?;
        Ok(self.moved_on(to, event == Event::Beacon, time))
    }

    // Kept: nine calls that differ in their event alone, since each is public by its name.
    pub fn ready(self, time: u32) -> Result<State, Refusal>
        ensures { lived_by self result ≡ on_event self ready time }
    {
        self.met(Event::Ready, time)
    }

    pub fn failed(self, time: u32) -> Result<State, Refusal>
        ensures { lived_by self result ≡ on_event self failed time }
    {
        self.met(Event::Failed, time)
    }

    pub fn heard_beacon(self, time: u32) -> Result<State, Refusal>
        ensures { lived_by self result ≡ on_event self beacon time }
    {
        self.met(Event::Beacon, time)
    }

    pub fn accepted(self, time: u32) -> Result<State, Refusal>
        ensures { lived_by self result ≡ on_event self join_accepted time }
    {
        self.met(Event::Accepted, time)
    }

    pub fn denied(self, time: u32) -> Result<State, Refusal>
        ensures { lived_by self result ≡ on_event self join_denied time }
    {
        self.met(Event::Denied, time)
    }

    pub fn fault(self, time: u32) -> Result<State, Refusal>
        ensures { lived_by self result ≡ on_event self fault time }
    {
        self.met(Event::Fault, time)
    }

    pub fn elected(self, time: u32) -> Result<State, Refusal>
        ensures { lived_by self result ≡ on_event self elected time }
    {
        self.met(Event::Elected, time)
    }

    pub fn role_change(self, time: u32) -> Result<State, Refusal>
        ensures { lived_by self result ≡ on_event self role_change time }
    {
        self.met(Event::RoleChange, time)
    }

    pub fn recovered(self, time: u32) -> Result<State, Refusal>
        ensures { lived_by self result ≡ on_event self recovered time }
    {
        self.met(Event::Recovered, time)
    }
}
