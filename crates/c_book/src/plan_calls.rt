// A plan of 10 bytes, kept by the caller: made, and what its slots come to.
ghost use Rattle.std.specs.Prelude.{◌≡◌, ◌≤◌, length};
ghost use Rattle.std.proofs.lemmas.List.Edits.{sets};
ghost use Rattle.octets.specs.Refusals.{status_of};
ghost use Rattle.site_plan.specs.Plans.{plan_numbers};
ghost use Rattle.c_book.specs.BookCalls.{book_left};
ghost use Rattle.c_book.specs.PlanCalls.{plan_call, numbers_left, numbers_call};

use octets::refusals::{Refusal, refuse_if, status};
use site_plan::plan::Plan;
use site_plan::plan_bytes::{PLAN_SIZE, plan_of, put_plan};

const PLAN_NUMBERS: usize = 7;

// Makes a site's plan of its seven numbers. One that is too large for a plan is out of rule, and not cut.
#[tactic(auto, unfolding(crate::specs::PlanCalls::plan_call))]
pub fn braidlark_plan(
    plan: &mut [u8],
    network: u16,
    manager: u16,
    max_hops: u32,
    rows: u32,
    data_slots: u32,
    slot_ms: u32,
    beacon_type: u32,
) -> u8
    ensures { book_left result plan.new ≡ plan_call plan.old network manager max_hops rows data_slots slot_ms beacon_type }
{
    if plan.len() != PLAN_SIZE {
        return Refusal::Rule.number();
    }
    match Plan::new(
        network,
        manager,
        max_hops,
        rows,
        data_slots,
        slot_ms,
        beacon_type,
    ) {
        Ok(made) => {
            put_plan(plan, 0, made);
            0
        }
        Err(refusal) => refusal.number(),
    }
}

// The numbers of a plan, from the buffer's start on.
fn put_numbers(numbers: &mut [u32], plan: Plan)
    requires { 7 ≤ length numbers.old }
    ensures { numbers.new ≡ sets numbers.old 0 (plan_numbers plan) }
{
    numbers[..PLAN_NUMBERS].copy_from_slice(&[
        u32::from(plan.active()),
        plan.slots(),
        plan.superframe_ms(),
        u32::from(plan.control_at()),
        u32::from(plan.data_at()),
        u32::from(plan.discovery_at()),
        u32::from(plan.sleep_at()),
    ]);
}

// The same of a plan in the caller's bytes.
#[tactic(auto, unfolding(crate::specs::PlanCalls::numbers_call))]
fn tell_numbers(plan: &[u8], numbers: &mut [u32]) -> Result<(), Refusal>
    ensures { numbers_left (status_of result) numbers.new ≡ numbers_call plan.now numbers.old }
{
    refuse_if(plan.len() != PLAN_SIZE, Refusal::Rule)?;
    let held = plan_of(plan, 0);
    refuse_if(!held.within_rule(), Refusal::Rule)?;
    refuse_if(numbers.len() < PLAN_NUMBERS, Refusal::Room)?;
    put_numbers(numbers, held);
    Ok(())
}

// Tells how many slots a plan has, how long its superframe is, and where each region of slots begins.
pub fn braidlark_plan_numbers(plan: &[u8], numbers: &mut [u32]) -> u8
    ensures { numbers_left result numbers.new ≡ numbers_call plan.now numbers.old }
{
    status(tell_numbers(plan, numbers))
}
