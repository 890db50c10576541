// Forwarding a beacon of either kind, by a table by value or in bytes: whether it is passed on is the table's to say; here it is read.
ghost use Rattle.std.specs.Prelude.{◌≡◌};
ghost use Rattle.octets.specs.Answers.{first};
ghost use Rattle.octets.specs.Refusals.{status_of};
ghost use Rattle.route_forwards.specs.Forwards.{passing_of, unread_reasons, passed, forward_of, forwarded_in, forward_call};
ghost use Rattle.route_forwards.specs.Outcomes.{forwarded};

use crate::copying::{copy_size, longest_delay, put_copy_of};
use frame_beacons::either::EitherBeacon;
use octets::addresses::is_address;
use octets::choices::either;
use octets::refusals::{Refusal, refuse_if};
use octets::stored::Stored;
use route_in_place::changing;
use route_passing::{Passing, pass};
use route_table::table::Table;

// What forwarding by a table by value gives: the new table, and how many bytes were written.
#[derive(Drop)]
pub struct Forwarded {
    pub table: Table,
    pub written: u8,
}

// Of a short beacon the original source is the plan's manager.
fn passing_of(manager: u16, beacon: EitherBeacon) -> Passing
    ensures { result ≡ passing_of manager beacon }
{
    Passing {
        source: beacon.source,
        network: beacon.network,
        original_source: either(beacon.short, manager, beacon.original_source),
        hop: beacon.hop,
        max_hops: beacon.max_hops,
        delay: beacon.delay,
        longest: longest_delay(beacon.short),
        sequence: beacon.sequence,
    }
}

// What refuses a frame before a table is asked: it is no beacon, or the caller has no network or no manager.
fn unread(network: u16, manager: u16, frame: &[u8]) -> Result<(), Refusal>
    ensures { status_of result ≡ first (unread_reasons network manager frame.now) }
{
    EitherBeacon::refusal(frame)?;
    refuse_if(network == 0, Refusal::Field)?;
    refuse_if(!is_address(manager), Refusal::Field)
}

// Writes the copy, and records its pair and the time; the rows that are gone are dropped.
pub fn forward(
    table: Table,
    network: u16,
    manager: u16,
    frame: &[u8],
    delay: u32,
    time: u32,
    out: &mut [u8],
) -> Result<Forwarded, Refusal>
    ensures { passed (forwarded table result) out.new ≡ forward_of table network manager frame.now delay time out.old }
{
    let beacon = EitherBeacon::of(frame);
    let passing = passing_of(manager, beacon);
    let before = unread(network, manager, frame);
    let written = copy_size(beacon.short);
    let behind = refuse_if(out.len() < usize::from(written), Refusal::Room);
    let next = pass(table, before, network, passing, delay, time, behind)?;
    put_copy_of(out, table.own, delay, frame);
    Ok(Forwarded {
        table: next,
        written,
    })
}

// The same by the table that bytes hold; answers how many bytes were written.
pub fn forward_in(
    table: &mut [u8],
    network: u16,
    manager: u16,
    frame: &[u8],
    delay: u32,
    time: u32,
    out: &mut [u8],
) -> Result<u8, Refusal>
    ensures { forwarded_in result table.new out.new ≡ forward_call table.old network manager frame.now delay time out.old 0 }
{
    let own = u16::read(&table[..], 0);
    let beacon = EitherBeacon::of(frame);
    let passing = passing_of(manager, beacon);
    let before = unread(network, manager, frame);
    let written = copy_size(beacon.short);
    let behind = refuse_if(out.len() < usize::from(written), Refusal::Room);
    changing::pass(table, before, network, passing, delay, time, behind)?;
    put_copy_of(out, own, delay, frame);
    Ok(written)
}
