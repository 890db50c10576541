// The schedule of a member: what it does in each slot, one byte a slot.
ghost use Rattle.std.specs.Prelude.{◌≡◌, ◌≤◌, length};
ghost use Rattle.octets.specs.Lists.{tab};
ghost use Rattle.octets.specs.Told.{wrote};
ghost use Rattle.slot_sets.specs.Sets.{slots_of};
ghost use Rattle.site_plan.specs.Schedules.{kind_of};
ghost use Rattle.book.specs.Books.{contents};
ghost use Rattle.book.specs.Schedules.{hop_rule, schedule_of};

use crate::book::Book;
use book_members::rows::{current, place_for, used};
use octets::refusals::{Refusal, refuse_if};
use site_plan::plan::Plan;
use site_plan::schedules::{Seat, SlotKind, kind_at};

// Whether a unit may be at a hop: the manager at 0, and no other there.
// Kept: a hop is any number of 32 bits, since a caller may name any: one out of rule is refused, and not cut.
fn hop_within_rule(plan: Plan, unit: u16, hop: u32) -> bool
    ensures { result ≡ hop_rule plan unit hop }
{
    if unit == plan.manager {
        return hop == 0;
    }
    (1 <= hop) & (hop <= u32::from(plan.max_hops))
}

// The kinds of all slots. Half of them are asleep, and need not be asked for one by one.
fn put_kinds(out: &mut [u8], plan: Plan, seat: Seat)
    requires { length out.old ≤ 255 }
    ensures { out.new ≡ tab (length out.old) (kind_of plan seat.row seat.hop (slots_of seat.slots)) }
{
    let awake = out.len().min(plan.sleep_at() as usize);
    for slot in 0..awake {
        out[slot] = kind_at(plan, seat, slot as u8).number();
    }
    out[awake..].fill(SlotKind::Sleep.number());
}

impl Book {
    // Writes the kinds of all slots for a live member at a hop.
    #[tactic(auto, unfolding(crate::specs::Schedules::schedule_of))]
    pub fn schedule(self, unit: u16, hop: u32, time: u32, out: &mut [u8]) -> Result<usize, Refusal>
        ensures { wrote result out.new ≡ schedule_of (contents self) unit hop time out.old }
    {
        let plan = self.plan;
        self.refuse_visit(unit, time)?;
        refuse_if(!hop_within_rule(plan, unit, hop), Refusal::Rule)?;
        let rows = current(self.rows, time);
        let at = place_for(used(&rows, plan.rows), unit).ok_or(Refusal::NoMember)?;
        let count = plan.slots() as usize;
        refuse_if(out.len() < count, Refusal::Room)?;
        let seat = Seat {
            row: at as u8,
            hop: hop as u8,
            slots: rows[at].slots,
        };
        put_kinds(&mut out[..count], plan, seat);
        Ok(count)
    }
}
