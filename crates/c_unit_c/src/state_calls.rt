// A unit's state: 13 bytes that the caller keeps, made fresh, and taken on by an event or a tick.
ghost use Rattle.std.specs.Prelude.{◌≡◌};
ghost use Rattle.c_unit.specs.StateCalls.{state_left, fresh_call, event_call, tick_call};

// A fresh state, whose three times are the given one.
#[unsafe(no_mangle)]
pub extern "C" fn braidlark_state_fresh(state: &mut [u8], time: u32) -> u8
    ensures { state_left result state.new ≡ fresh_call state.old time }
{
    c_unit::state_calls::braidlark_state_fresh(state, time)
}

// The event with this number, at a time.
#[unsafe(no_mangle)]
pub extern "C" fn braidlark_state_event(state: &mut [u8], event: u8, time: u32) -> u8
    ensures { state_left result state.new ≡ event_call state.old event time }
{
    c_unit::state_calls::braidlark_state_event(state, event, time)
}

// A tick at a time, with the superframe's length.
#[unsafe(no_mangle)]
pub extern "C" fn braidlark_state_tick(state: &mut [u8], superframe_ms: u32, time: u32) -> u8
    ensures { state_left result state.new ≡ tick_call state.old superframe_ms time }
{
    c_unit::state_calls::braidlark_state_tick(state, superframe_ms, time)
}
