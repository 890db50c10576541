// Relaying a data frame.
ghost use Rattle.std.specs.Prelude.{◌≡◌, true, IfOk, length, ◌≤◌};
ghost use Rattle.std.proofs.lemmas.List.Edits.{sets};
ghost use Rattle.octets.specs.Answers.{first};
ghost use Rattle.octets.specs.Parts.{lent};
ghost use Rattle.octets.specs.Refusals.{status_of};
ghost use Rattle.frame_kinds.specs.Reading.{refusal_as};
ghost use Rattle.frame_traffic.specs.Traffic.{data_kind};
ghost use Rattle.route_table.specs.Outcomes.{found};
ghost use Rattle.route_relays.specs.Outcomes.{told};
ghost use Rattle.route_relays.specs.Relays.{is_for, copy_of, unrelayed_reasons, relay_of, relay_by, relay_in, handed_back, relayed};
ghost use Rattle.route_relays.specs.Ways.{LeadsOn};

use frame_traffic::data_frame::{DataHeader, payload};
use moments::in_order;
use octets::parts::{part, put_bytes};
use octets::refusals::{Refusal, refuse_if};
use route_bytes::tables::head_of;
use route_in_place::judging::judged_for;
use route_table::table::{Head, Route, Table, found_by};

// Where the ttl stands in a data frame.
const TTL_AT: usize = 5;

// What relaying gives.
#[derive(Clone, Copy, Debug, PartialEq, Eq)]
pub enum Relayed {
    // The frame is for this unit; the size is its payload's, which `handed_back` hands back.
    Ours {
        size: usize,
    },
    // A copy of so many bytes was written; its route is usable for `left` ms more.
    Copied {
        next_hop: u16,
        size: usize,
        left: u32,
    },
}

// The route by which a table within rule with this head relays a frame, None where the frame is for its unit. `route` is what the table answers to a
// lookup of the frame's destination; one with less than `least` ms left will not do.
fn way(
    head: Head,
    route: Result<Route, Refusal>,
    frame: &[u8],
    time: u32,
    least: u32,
    room: usize,
) -> Result<Option<Route>, Refusal>
    ensures { (status_of result ≡ first (unrelayed_reasons head.own head.time (found route) frame.now time least room)) × IfOk result (LeadsOn head.own route frame.now) }
{
    DataHeader::refusal(frame)?;
    let header = DataHeader::of(frame);
    refuse_if(header.source == head.own, Refusal::Own)?;
    refuse_if(!in_order(head.time, time), Refusal::Earlier)?;
    if header.destination == head.own {
        return Ok(None);
    }
    refuse_if(header.ttl <= 1, Refusal::Ttl)?;
    let Ok(route) = route else {
        return Err(Refusal::NoRoute);
    };
    refuse_if(route.left < least, Refusal::NoRoute)?;
    refuse_if(room < frame.len(), Refusal::Room)?;
    Ok(Some(route))
}

// Writes the copy that goes on: the frame's bytes, of which two differ. Of what the checksum is made of only the ttl changes, so the new one follows from the
// one that was received and checked.
fn put_copy(out: &mut [u8], frame: &[u8])
    requires { (refusal_as data_kind frame.now ≡ 0) × (length frame.now ≤ length out.old) }
    ensures { out.new ≡ sets out.old 0 (copy_of frame.now) }
{
    let last = frame.len() - 1;
    let sum = frame[last];
    let ttl = frame[TTL_AT];
    let next = ttl.saturating_sub(1);
    put_bytes(out, 0, frame);
    out[TTL_AT] = next;
    out[last] = sum ^ ttl ^ next;
}

// Relays by a table within rule with this head. A payload for its unit is told and nothing is written; any other frame is written with its ttl one less.
fn relay_by(
    head: Head,
    route: Result<Route, Refusal>,
    frame: &[u8],
    time: u32,
    least: u32,
    out: &mut [u8],
) -> Result<Relayed, Refusal>
    ensures { relayed (told result) out.new ≡ relay_by head.own head.time (found route) frame.now time least out.old }
{
    let Some(route) = way(head, route, frame, time, least, out.len())? else {
        return Ok(Relayed::Ours {
            size: usize::from(DataHeader::of(frame).count),
        });
    };
    put_copy(out, frame);
    Ok(Relayed::Copied {
        next_hop: route.next_hop,
        size: frame.len(),
        left: route.left,
    })
}

// Relays on a route that has at least `least` ms left.
pub fn relay(
    table: Table,
    frame: &[u8],
    time: u32,
    least: u32,
    out: &mut [u8],
) -> Result<Relayed, Refusal>
    ensures { relayed (told result) out.new ≡ relay_of table frame.now time least out.old }
{
    refuse_if(!table.within_rule(), Refusal::Rule)?;
    let to = DataHeader::of(frame).destination;
    let route = table.route_to(to, time);
    relay_by(table.head(), route, frame, time, least, out)
}

// Relays by the table that bytes hold.
pub fn relay_in(
    table: &[u8],
    frame: &[u8],
    time: u32,
    least: u32,
    out: &mut [u8],
) -> Result<Relayed, Refusal>
    ensures { relayed (told result) out.new ≡ relay_in table.now frame.now time least out.old }
{
    let to = DataHeader::of(frame).destination;
    let Some(row) = judged_for(table, to) else {
        return Err(Refusal::Rule);
    };
    let head = head_of(table);
    let route = found_by(head.time, row, to, time);
    relay_by(head, route, frame, time, least, out)
}

// The payload of a frame that is relayed to this unit, as its part of the frame; nothing of any other.
pub fn handed_back(table: Table, frame: &[u8], time: u32) -> &[u8]
    ensures { lent result ≡ handed_back table (lent frame.entry) time }
{
    if !table.within_rule() {
        return part(frame, 0, 0);
    }
    let to = DataHeader::of(frame).destination;
    let route = table.route_to(to, time);
    match way(table.head(), route, frame, time, 0, 0) {
        Ok(None) => payload(frame),
        Ok(Some(_)) => part(frame, 0, 0),
        Err(_) => part(frame, 0, 0),
    }
}
