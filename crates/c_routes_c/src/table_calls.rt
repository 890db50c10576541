// A unit's table of routes, kept by the caller as 539 bytes: made, looked up in, and a unit forgotten.
ghost use Rattle.std.specs.Prelude.{◌≡◌};
ghost use Rattle.route_bytes.specs.StoredTables.{table_left};
ghost use Rattle.c_routes.specs.TableCalls.{fresh_call, forget_call, lookup_left, lookup_call};

// Makes the empty table of a unit, with this time as last accepted.
#[unsafe(no_mangle)]
pub extern "C" fn braidlark_table_fresh(table: &mut [u8], own: u16, time: u32) -> u8
    ensures { table_left result table.new ≡ fresh_call table.old own time }
{
    c_routes::table_calls::braidlark_table_fresh(table, own, time)
}

// Answers the next hop to a destination, how many hops it is away, and for how many ms more the route is usable.
#[unsafe(no_mangle)]
pub extern "C" fn braidlark_lookup(
    table: &[u8],
    destination: u16,
    time: u32,
    next_hop: &mut u16,
    hops: &mut u8,
    left: &mut u32,
) -> u8
    ensures { lookup_left result next_hop.new hops.new left.new ≡ lookup_call table.now destination time next_hop.old hops.old left.old }
{
    c_routes::table_calls::braidlark_lookup(table, destination, time, next_hop, hops, left)
}

// Withdraws all usable rows to a unit or through it.
#[unsafe(no_mangle)]
pub extern "C" fn braidlark_forget(table: &mut [u8], unit: u16, time: u32) -> u8
    ensures { table_left result table.new ≡ forget_call table.old unit time }
{
    c_routes::table_calls::braidlark_forget(table, unit, time)
}
