// The clock: the offset that the caller keeps, stepped by a beacon.
ghost use Rattle.std.specs.Prelude.{◌≡◌};
ghost use Rattle.c_unit.specs.ClockCalls.{clock_left, clock_call};

// The step by a beacon's frame that came in at a local time, for a unit of this network.
#[unsafe(no_mangle)]
pub extern "C" fn braidlark_clock_step(
    offset: &mut u32,
    local_time: u32,
    network: u16,
    frame: &[u8],
) -> u8
    ensures { clock_left result offset.new ≡ clock_call offset.old local_time network frame.now }
{
    c_unit::clock_calls::braidlark_clock_step(offset, local_time, network, frame)
}
