// A plan of 10 bytes, kept by the caller: made, and what its slots come to.
ghost use Rattle.std.specs.Prelude.{◌≡◌};
ghost use Rattle.c_book.specs.BookCalls.{book_left};
ghost use Rattle.c_book.specs.PlanCalls.{plan_call, numbers_left, numbers_call};

// Makes a site's plan of its seven numbers. One that is too large for a plan is out of rule, and not cut.
#[unsafe(no_mangle)]
pub extern "C" fn braidlark_plan(
    plan: &mut [u8],
    network: u16,
    manager: u16,
    max_hops: u32,
    rows: u32,
    data_slots: u32,
    slot_ms: u32,
    beacon_type: u32,
) -> u8
    ensures { book_left result plan.new ≡ plan_call plan.old network manager max_hops rows data_slots slot_ms beacon_type }
{
    c_book::plan_calls::braidlark_plan(
        plan,
        network,
        manager,
        max_hops,
        rows,
        data_slots,
        slot_ms,
        beacon_type,
    )
}

// Tells how many slots a plan has, how long its superframe is, and where each region of slots begins.
#[unsafe(no_mangle)]
pub extern "C" fn braidlark_plan_numbers(plan: &[u8], numbers: &mut [u32]) -> u8
    ensures { numbers_left result numbers.new ≡ numbers_call plan.now numbers.old }
{
    c_book::plan_calls::braidlark_plan_numbers(plan, numbers)
}
