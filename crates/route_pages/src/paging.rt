// A page of a table by value.
ghost use Rattle.std.specs.Prelude.{◌≡◌};
ghost use Rattle.std.specs.List.{position};
ghost use Rattle.octets.specs.Told.{wrote};
ghost use Rattle.route_pages.specs.Pages.{page_of};
ghost use Rattle.route_pages.specs.Places.{is_unused};

use crate::writing::put_page;
use octets::refusals::{Refusal, refuse_if};
use route_table::row::Row;
use route_table::standing::standing_places;
use route_table::table::Table;

// The first place that is not in use.
fn first_unused(rows: &[Row; 48]) -> Option<usize>
    ensures { result ≡ position is_unused rows.now }
{
    rows.iter().position(|row| row.destination == 0)
}

// Page `number` of this unit's update: 24 rows of those that are not gone.
pub fn page(table: Table, number: u32, time: u32, out: &mut [u8]) -> Result<usize, Refusal>
    ensures { wrote result out.new ≡ page_of table number time out.old }
{
    refuse_if(!table.within_rule(), Refusal::Rule)?;
    let stand = standing_places(table.rows, time);
    let used = first_unused(&stand).unwrap_or(48);
    let from = (24 * (number as usize)).min(used);
    let to = (from + 24).min(used);
    put_page(out, table.head(), &stand[from..to], number, time)
}
