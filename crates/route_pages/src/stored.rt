// A page of a table that lies in bytes: only its rows in use are read.
ghost use Rattle.std.specs.Prelude.{◌≡◌};
ghost use Rattle.octets.specs.Told.{wrote};
ghost use Rattle.route_pages.specs.Pages.{page_in};

use crate::rows::rows_on;
use crate::writing::put_page;
use octets::refusals::{Refusal, refuse_if};
use route_bytes::tables::head_of;
use route_in_place::judging::holds_table;
use route_table::row::Row;

// Page `number` of this unit's update: 24 rows of those that are not gone.
pub fn page_in(table: &[u8], number: u32, time: u32, out: &mut [u8]) -> Result<usize, Refusal>
    ensures { wrote result out.new ≡ page_in table.now number time out.old }
{
    refuse_if(!holds_table(table), Refusal::Rule)?;
    let head = head_of(table);
    let mut page = [Row::NONE; 24];
    let count = rows_on(&mut page, table, 24 * (number as usize), time);
    put_page(out, head, &page[..count], number, time)
}
