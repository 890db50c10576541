// What a unit does in each slot of a plan.
ghost use Rattle.std.specs.Prelude.{◌≡◌, cond};
ghost use Rattle.slot_sets.specs.Sets.{slots_of, has};
ghost use Rattle.site_plan.specs.Schedules.{tx, rx, slot_number, beacon_slot_kind, control_slot_kind, discovery_slot_kind, kind_of};

use crate::plan::Plan;
use slot_sets::masks::holds;

// The kinds of slots, with document 01's numbers.
#[derive(Clone, Copy, Debug, PartialEq, Eq)]
pub enum SlotKind {
    Tx = 0,
    Rx = 1,
    BeaconTx = 2,
    BeaconRx = 3,
    ControlTx = 4,
    ControlRx = 5,
    DiscoveryTx = 6,
    DiscoveryRx = 7,
    Sleep = 8,
}

impl SlotKind {
    pub fn number(self) -> u8
        ensures { result ≡ slot_number self }
    {
        self as u8
    }
}

// What a unit has in a plan: its row, its hop (the manager is at 0) and the mask of its data slots.
#[derive(Clone, Copy)]
pub struct Seat {
    pub row: u8,
    pub hop: u8,
    pub slots: u64,
}

// Each unit sends at its hop and hears the hop before it; all but the manager hear the manager too.
fn beacon_kind(hop: u8, slot: u8) -> SlotKind
    ensures { slot_number result ≡ beacon_slot_kind hop slot }
{
    if slot == hop {
        return SlotKind::BeaconTx;
    }
    let before = slot as u16 + 1 == hop as u16;
    let manager = (slot == 0) & (0 < hop);
    if before | manager {
        SlotKind::BeaconRx
    } else {
        SlotKind::Sleep
    }
}

fn control_kind(plan: Plan, row: u8, slot: u8) -> SlotKind
    ensures { slot_number result ≡ control_slot_kind plan row slot }
{
    let own = plan.control_at() + row as u16;
    if slot as u16 == own {
        SlotKind::ControlTx
    } else {
        SlotKind::ControlRx
    }
}

// The kind of the data slot at a place among the data slots.
fn data_kind(own: u64, place: u16) -> SlotKind
    ensures { slot_number result ≡ cond (has (slots_of own) place) tx rx }
{
    if holds(own, place as u32) {
        SlotKind::Tx
    } else {
        SlotKind::Rx
    }
}

fn discovery_kind(hop: u8) -> SlotKind
    ensures { slot_number result ≡ discovery_slot_kind hop }
{
    if hop == 0 {
        SlotKind::DiscoveryTx
    } else {
        SlotKind::DiscoveryRx
    }
}

// The kind of a slot for the unit in this seat: that of its region.
pub fn kind_at(plan: Plan, seat: Seat, slot: u8) -> SlotKind
    ensures { slot_number result ≡ kind_of plan seat.row seat.hop (slots_of seat.slots) slot }
{
    let at = slot as u16;
    if at < plan.control_at() {
        return beacon_kind(seat.hop, slot);
    }
    let data = plan.data_at();
    if at < data {
        return control_kind(plan, seat.row, slot);
    }
    if at < plan.discovery_at() {
        return data_kind(seat.slots, at - data);
    }
    if at < plan.sleep_at() {
        return discovery_kind(seat.hop);
    }
    SlotKind::Sleep
}
