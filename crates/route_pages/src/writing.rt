// The entry for a row, why a page is not written, and the page with some rows on it.
ghost use Rattle.std.specs.Prelude.{◌≡◌, map, ◌+◌, ◌*◌, ◌≤◌, length};
ghost use Rattle.std.proofs.lemmas.List.Edits.{sets};
ghost use Rattle.octets.specs.Answers.{first};
ghost use Rattle.octets.specs.Refusals.{status_of};
ghost use Rattle.octets.specs.Told.{wrote};
ghost use Rattle.route_pages.specs.Pages.{entry_for, entries_bytes};
ghost use Rattle.route_pages.specs.Places.{unpaged_reasons, page_with};

use frame_kinds::sealing::seal;
use frame_traffic::entry::Entry;
use frame_traffic::update::UpdateHeader;
use moments::in_order;
use octets::choices::either;
use octets::refusals::{Refusal, refuse_if};
use route_table::row::Row;
use route_table::table::Head;

// The entry for a row: a dead one is unreachable.
#[tactic(auto, unfolding(crate::specs::Pages::entry_for))]
fn entry_for(row: Row, time: u32) -> Entry
    ensures { result ≡ entry_for time row }
{
    let usable = row.usable(time);
    Entry {
        destination: row.destination,
        hops: either(usable, row.hops, 255),
        quality: either(usable, row.quality, 0),
        next_hop: row.next_hop,
        timestamp: row.time,
    }
}

// Why a page with so many rows is not written. Page 0 always exists, another if a row stands on it.
fn why_unpaged(last: u32, number: u32, count: usize, time: u32, room: usize) -> Result<(), Refusal>
    requires { count ≤ 24 }
    ensures { status_of result ≡ first (unpaged_reasons last number count time room) }
{
    refuse_if(!in_order(last, time), Refusal::Earlier)?;
    let there = (number == 0) | (0 < count);
    refuse_if(!there, Refusal::Rule)?;
    refuse_if(room < 9 + 10 * count, Refusal::Room)
}

// The entries for some rows, behind an update's header.
fn put_entries(out: &mut [u8], rows: &[Row], time: u32)
    requires { 9 + 10 * length rows.now ≤ length out.old }
    ensures { out.new ≡ sets out.old 8 (entries_bytes (map (entry_for time) rows.now)) }
{
    for (i, row) in rows.iter().enumerate() {
        let start = 8 + 10 * i;
        entry_for(*row, time).put(&mut out[start..start + 10]);
    }
}

// Page `number` of the update of a table within rule with this head, where these rows stand on it.
pub(crate) fn put_page(
    out: &mut [u8],
    head: Head,
    rows: &[Row],
    number: u32,
    time: u32,
) -> Result<usize, Refusal>
    requires { length rows.now ≤ 24 }
    ensures { wrote result out.new ≡ page_with head.own head.time rows.now number time out.old }
{
    let count = rows.len();
    why_unpaged(head.time, number, count, time, out.len())?;
    let header = UpdateHeader {
        origin: head.own,
        count: count as u8,
        time,
    };
    header.put(out);
    put_entries(out, rows, time);
    seal(out, 8 + 10 * count);
    Ok(9 + 10 * count)
}
