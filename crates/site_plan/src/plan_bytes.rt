// A plan as 10 bytes, and as the 9 of a stored form's section, which do not say the kind of its beacons; the lowest byte of a number first.
ghost use Rattle.std.specs.Prelude.{◌≡◌};
ghost use Rattle.std.proofs.lemmas.List.Edits.{sets};
ghost use Rattle.site_plan.specs.PlanBytes.{plan_at, bytes_of_plan, section_at, section_bytes};

use crate::plan::Plan;
use octets::stored::Stored;

// How long a plan is that its caller keeps.
pub const PLAN_SIZE: usize = 10;

// The plan that the section from a place on says, within rule or not, with beacons of the kind that document 01 has.
pub fn section_plan(s: &[u8], place: u8) -> Plan
    ensures { result ≡ section_at s.now place }
{
    let at = place as usize;
    Plan {
        network: u16::read(s, at),
        manager: u16::read(s, at + 2),
        max_hops: u8::read(s, at + 4),
        rows: u8::read(s, at + 5),
        data_slots: u8::read(s, at + 6),
        slot_ms: u16::read(s, at + 7),
        beacon_type: Plan::BEACON,
    }
}

// The plan that the bytes from a place on say, within rule or not.
pub fn plan_of(s: &[u8], place: u8) -> Plan
    ensures { result ≡ plan_at s.now place }
{
    Plan {
        beacon_type: u8::read(s, place as usize + 9),
        ..section_plan(s, place)
    }
}

// The section of a plan, from a place on.
pub fn put_section(out: &mut [u8], place: u8, plan: Plan)
    ensures { out.new ≡ sets out.old place (section_bytes plan) }
{
    let at = place as usize;
    plan.network.store(out, at);
    plan.manager.store(out, at + 2);
    plan.max_hops.store(out, at + 4);
    plan.rows.store(out, at + 5);
    plan.data_slots.store(out, at + 6);
    plan.slot_ms.store(out, at + 7);
}

// The bytes of a plan, from a place on.
pub fn put_plan(out: &mut [u8], place: u8, plan: Plan)
    ensures { out.new ≡ sets out.old place (bytes_of_plan plan) }
{
    put_section(out, place, plan);
    plan.beacon_type.store(out, place as usize + 9);
}
