// A unit's table of routes, kept by the caller as 539 bytes: made, looked up in, and a unit forgotten.
ghost use Rattle.std.specs.Prelude.{◌≡◌};
ghost use Rattle.route_bytes.specs.StoredTables.{table_left};
ghost use Rattle.c_routes.specs.TableCalls.{fresh_call, forget_call, lookup_left, lookup_call};

use octets::refusals::{Refusal, status};
use route_bytes::tables::put_empty;
use route_in_place::changing::forget;
use route_in_place::finding::lookup;
use route_table::table::Table;

// Makes the empty table of a unit, with this time as last accepted.
pub fn braidlark_table_fresh(table: &mut [u8], own: u16, time: u32) -> u8
    ensures { table_left result table.new ≡ fresh_call table.old own time }
{
    if table.len() != 539 {
        return Refusal::Rule.number();
    }
    match Table::fresh(own, time) {
        Ok(fresh) => {
            put_empty(table, fresh.head());
            0
        }
        Err(refusal) => refusal.number(),
    }
}

// Answers the next hop to a destination, how many hops it is away, and for how many ms more the route is usable.
pub fn braidlark_lookup(
    table: &[u8],
    destination: u16,
    time: u32,
    next_hop: &mut u16,
    hops: &mut u8,
    left: &mut u32,
) -> u8
    ensures { lookup_left result next_hop.new hops.new left.new ≡ lookup_call table.now destination time next_hop.old hops.old left.old }
{
    match lookup(table, destination, time) {
        Ok(route) => {
            *next_hop = route.next_hop;
            *hops = route.hops;
            *left = route.left;
            0
        }
        Err(refusal) => refusal.number(),
    }
}

// Withdraws all usable rows to a unit or through it.
pub fn braidlark_forget(table: &mut [u8], unit: u16, time: u32) -> u8
    ensures { table_left result table.new ≡ forget_call table.old unit time }
{
    status(forget(table, unit, time))
}
