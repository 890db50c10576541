// Frames that go on by a table of 539 bytes: data is handed back or relayed, a beacon is forwarded.
ghost use Rattle.std.specs.Prelude.{◌≡◌};
ghost use Rattle.route_forwards.specs.Forwards.{forward_left, forward_call};
ghost use Rattle.c_routes.specs.RelayCalls.{relay_left, relay_call};

use route_forwards::forwarding::forward_in;
use route_relays::relaying::{Relayed, relay_in};

// Relays a data frame, on a route that has at least so many ms left. For this unit: next hop 0, and where the payload starts in the frame and how long it
// is. Else: the next hop, place 0, how many bytes were written, and for how many ms more the route is usable.
pub fn braidlark_relay(
    table: &[u8],
    frame: &[u8],
    time: u32,
    least_left: u32,
    out: &mut [u8],
    next_hop: &mut u16,
    place: &mut u32,
    length: &mut u32,
    left: &mut u32,
) -> u8
    ensures { relay_left result out.new next_hop.new place.new length.new left.new ≡ relay_call table.now frame.now time least_left out.old next_hop.old place.old length.old left.old }
{
    match relay_in(table, frame, time, least_left, out) {
        Ok(Relayed::Ours { size }) => {
            *next_hop = 0;
            *place = 9;
            *length = size as u32;
            *left = 0;
            0
        }
        Ok(
            Relayed::Copied {
                next_hop: to,
                size,
                left: usable,
            },
        ) => {
            *next_hop = to;
            *place = 0;
            *length = size as u32;
            *left = usable;
            0
        }
        Err(refusal) => refusal.number(),
    }
}

// Forwards a beacon of either kind with this delay added, and says how many bytes were written.
pub fn braidlark_forward(
    table: &mut [u8],
    network: u16,
    manager: u16,
    frame: &[u8],
    delay: u32,
    time: u32,
    out: &mut [u8],
    written: &mut u32,
) -> u8
    ensures { forward_left result table.new out.new written.new ≡ forward_call table.old network manager frame.now delay time out.old written.old }
{
    match forward_in(table, network, manager, frame, delay, time, out) {
        Ok(size) => {
            *written = u32::from(size);
            0
        }
        Err(reason) => reason.number(),
    }
}
