// Routing updates over a table of 539 bytes: one that was heard is merged, and this unit's own are written, page by page.
ghost use Rattle.std.specs.Prelude.{◌≡◌};
ghost use Rattle.octets.specs.Calls.{write_left};
ghost use Rattle.route_merges.specs.StoredMerges.{merge_left, merge_call};
ghost use Rattle.c_routes.specs.UpdateCalls.{page_call};

use route_merges::stored::merge_in;
use route_pages::stored::page_in;

// Merges an update that was heard with this quality, and says how many candidates found no room, and how many rows were compared.
pub fn braidlark_merge(
    table: &mut [u8],
    frame: &[u8],
    quality: u8,
    time: u32,
    skipped: &mut u8,
    compared: &mut u16,
) -> u8
    ensures { merge_left result table.new skipped.new compared.new ≡ merge_call table.old frame.now quality time skipped.old compared.old }
{
    match merge_in(table, frame, quality, time) {
        Ok(tally) => {
            *skipped = tally.skipped;
            *compared = tally.compared;
            0
        }
        Err(refusal) => refusal.number(),
    }
}

// Writes a page of this unit's own update, and says how many bytes it has.
pub fn braidlark_page(table: &[u8], page: u32, time: u32, out: &mut [u8], written: &mut u32) -> u8
    ensures { write_left result out.new written.new ≡ page_call table.now page time out.old written.old }
{
    match page_in(table, page, time, out) {
        Ok(size) => {
            *written = size as u32;
            0
        }
        Err(refusal) => refusal.number(),
    }
}
