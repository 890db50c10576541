// Routing updates over a table of 539 bytes: one that was heard is merged, and this unit's own are written, page by page.
ghost use Rattle.std.specs.Prelude.{◌≡◌};
ghost use Rattle.octets.specs.Calls.{write_left};
ghost use Rattle.route_merges.specs.StoredMerges.{merge_left, merge_call};
ghost use Rattle.c_routes.specs.UpdateCalls.{page_call};

// Merges an update that was heard with this quality, and says how many candidates found no room, and how many rows were compared.
#[unsafe(no_mangle)]
pub extern "C" fn braidlark_merge(
    table: &mut [u8],
    frame: &[u8],
    quality: u8,
    time: u32,
    skipped: &mut u8,
    compared: &mut u16,
) -> u8
    ensures { merge_left result table.new skipped.new compared.new ≡ merge_call table.old frame.now quality time skipped.old compared.old }
{
    c_routes::update_calls::braidlark_merge(table, frame, quality, time, skipped, compared)
}

// Writes a page of this unit's own update, and says how many bytes it has.
#[unsafe(no_mangle)]
pub extern "C" fn braidlark_page(
    table: &[u8],
    page: u32,
    time: u32,
    out: &mut [u8],
    written: &mut u32,
) -> u8
    ensures { write_left result out.new written.new ≡ page_call table.now page time out.old written.old }
{
    c_routes::update_calls::braidlark_page(table, page, time, out, written)
}
