// The response frames that tell a member its slots: the control slot, then each data slot that it holds.
ghost use Rattle.std.specs.Prelude.{◌≡◌, map, ◌+◌, ◌*◌};
ghost use Rattle.std.proofs.lemmas.List.Edits.{sets};
ghost use Rattle.slot_sets.specs.Sets.{slots_of, count};
ghost use Rattle.site_plan.specs.Schedules.{data_slot};
ghost use Rattle.book_joins.specs.Responses.{listed, response, responses_for, responses};

use book_members::member::Member;
use frame_kinds::sealing::seal;
use frame_requests::JoinResponse;
use octets::parts::put_bytes;
use site_plan::plan::Plan;
use slot_sets::masks::{holds, size};

// The frame that grants a member one slot, in the plan's network.
fn response(plan: Plan, member: Member, slot: u16) -> [u8; 13]
    ensures { result ≡ response plan member.unit member.time slot }
{
    let mut frame = [0u8; 13];
    let granted = JoinResponse {
        node: member.unit,
        status: 0,
        slot,
        superframe_time: member.time,
        network: plan.network,
    };
    granted.put(&mut frame);
    seal(&mut frame, 12);
    frame
}

// How many bytes the responses of a member take that holds these slots.
pub(crate) fn bytes_for(own: u64) -> usize
    ensures { result ≡ 13 * (1 + count (slots_of own)) }
{
    13 * (1 + size(own) as usize)
}

// The frames of the data slots, ascending, behind that of the control slot. Slots behind the last one held are not looked at.
fn put_data_slots(out: &mut [u8], plan: Plan, member: Member)
    ensures { out.new ≡ sets out.old 13 (responses_for plan member.unit member.time (map (data_slot plan) (listed (slots_of member.slots) 0 64))) }
{
    let data = plan.data_at();
    let end = bytes_for(member.slots);
    let mut place = 13;
    for slot in 0..64u16 {
        if place == end {
            return;
        }
        if holds(member.slots, u32::from(slot)) {
            put_bytes(out, place, &response(plan, member, data + slot));
            place += 13;
        }
    }
}

// All frames of a member in a row, from the buffer's start on.
pub(crate) fn put_responses(out: &mut [u8], plan: Plan, row: u8, member: Member)
    ensures { out.new ≡ sets out.old 0 (responses plan member.unit member.time row (slots_of member.slots)) }
{
    let frame = response(plan, member, plan.control_at() + u16::from(row));
    put_bytes(out, 0, &frame);
    put_data_slots(out, plan, member);
}
