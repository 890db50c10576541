// The regions of a plan's slots: how many slots there are, and where each region begins. Any numbers are taken.
ghost use Rattle.std.specs.Prelude.{◌≡◌};
ghost use Rattle.site_plan.specs.Plans.{discovery_slots, active, slots_in, slots, superframe_ms_of, control_slot_at, data_slot_at, discovery_slot_at, sleep_slot_at};

use crate::plan::Plan;

// The length of a superframe with so many active slots.
fn slots_in(active: u16) -> u32
    ensures { result ≡ slots_in active }
{
    if active <= Plan::MOST_ACTIVE {
        Plan::LENGTHS[active as usize] as u32
    } else {
        Plan::MOST_SLOTS
    }
}

impl Plan {
    // One for every three rows, at least 2 and at most 5: by comparisons, which need no divider.
    pub fn discovery_slots(self) -> u16
        ensures { result ≡ discovery_slots self.rows }
    {
        let rows = self.rows;
        Plan::FEWEST_DISCOVERY_SLOTS + (6 < rows) as u16 + (9 < rows) as u16 + (12 < rows) as u16
    }

    // The first control slot, which is the manager's.
    pub fn control_at(self) -> u16
        ensures { result ≡ control_slot_at self }
    {
        self.max_hops as u16 + 1
    }

    // The first data slot.
    pub fn data_at(self) -> u16
        ensures { result ≡ data_slot_at self }
    {
        self.control_at() + self.rows as u16
    }

    pub fn discovery_at(self) -> u16
        ensures { result ≡ discovery_slot_at self }
    {
        self.data_at() + self.data_slots as u16
    }

    // The slots of beacons, control, data and discovery.
    pub fn active(self) -> u16
        ensures { result ≡ active self }
    {
        self.discovery_at() + self.discovery_slots()
    }

    pub fn sleep_at(self) -> u16
        ensures { result ≡ sleep_slot_at self }
    {
        self.active()
    }

    // How many slots a superframe has.
    pub fn slots(self) -> u32
        ensures { result ≡ slots self }
    {
        slots_in(self.active())
    }

    // How long a superframe is: exact, not modulo 2^16.
    pub fn superframe_ms(self) -> u32
        ensures { result ≡ superframe_ms_of self }
    {
        self.slots() * self.slot_ms as u32
    }
}
