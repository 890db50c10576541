// The tick of a unit's life, by which its times run out.
ghost use Rattle.std.specs.Prelude.{◌≡◌};
ghost use Rattle.unit_life.specs.Calls.{on_tick};
ghost use Rattle.unit_life.specs.Outcomes.{lived_by};

use crate::state::State;
use crate::table::tick_to;
use moments::age;
use octets::refusals::{Refusal, refuse_if};

impl State {
    // The superframe's length is judged in every kind, though only Normal's time is counted in superframes.
    #[tactic(auto, unfolding(crate::specs::Calls::on_tick))]
    pub fn tick(self, superframe_ms: u32, time: u32) -> Result<State, Refusal>
        ensures { lived_by self result ≡ on_tick self superframe_ms time }
    {
        let kind = self.kind_at(time)?;
        let good = (1 <= superframe_ms) & (superframe_ms <= State::LONGEST_TICKED_MS);
        refuse_if(!good, Refusal::Rule)?;
        let since_entry = age(time, self.entered);
        let silence = age(time, self.beacon);
        let to = tick_to(kind, since_entry, silence, superframe_ms);
        Ok(self.moved_on(to, false, time))
    }
}
