// What a lookup in a table that lies in bytes answers.
ghost use Rattle.std.specs.Prelude.{◌≡◌};
ghost use Rattle.route_table.specs.Outcomes.{found};
ghost use Rattle.route_in_place.specs.Lookups.{lookup_in};

use crate::judging::judged_for;
use octets::refusals::Refusal;
use octets::stored::Stored;
use route_table::table::{Route, found_by};

// The next hop to a destination, by a row that is usable at this time, and for how long it is.
pub fn lookup(s: &[u8], destination: u16, time: u32) -> Result<Route, Refusal>
    ensures { found result ≡ lookup_in s.now destination time }
{
    let Some(row) = judged_for(s, destination) else {
        return Err(Refusal::Rule);
    };
    found_by(u32::read(s, 2), row, destination, time)
}
