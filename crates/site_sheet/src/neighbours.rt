// The neighbours of each unit of a sheet, as masks of places. One pass over the links finds them, so that whether two units are near takes no search.
ghost use Rattle.std.specs.Prelude.{◌≡◌, true, ◌/◌, ◌<◌, ◌≤◌, length};
ghost use Rattle.site_sheet.specs.Seen.{Single, Linking};
ghost use Rattle.site_sheet.specs.Sheets.{distinct};
ghost use Rattle.site_sheet.specs.SheetBytes.{sheet_in};

use crate::rows::{link_at, link_count};
use crate::sheet::Sheet;
use slot_sets::masks::{below, joined, without};

// The mask of one place.
fn single(place: usize) -> u64
    requires { place < 64 }
    ensures { Single place result }
{
    let place = place as u32;
    without(below(place + 1), below(place))
}

// Of each place the places of its neighbours, if every link names two units of the sheet.
pub(crate) fn neighbours_of(links: &[u8], sheet: Sheet) -> Option<[u64; 21]>
    requires { (sheet.count ≤ 21) × (distinct (sheet_in sheet.bytes.now) ≡ true) }
    ensures { Linking links.now sheet.entry.bytes.now result }
{
    let mut masks = [0u64; 21];
    for place in (0..link_count(links)).rev() {
        let link = link_at(links, place);
        let one = sheet.place_from(0, link.one)?;
        let other = sheet.place_from(0, link.other)?;
        if link.one == link.other {
            return None;
        }
        masks[one] = joined(masks[one], single(other));
        masks[other] = joined(masks[other], single(one));
    }
    Some(masks)
}
