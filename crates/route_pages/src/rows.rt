// The rows on a page, in a table that lies in bytes.
ghost use Rattle.std.specs.Prelude.{◌≡◌, ◌≤◌, length, take, drop};
ghost use Rattle.route_table.specs.Rows.{standing};
ghost use Rattle.route_pages.specs.Places.{rows_from};

use route_bytes::tables::row_at;
use route_table::row::Row;

// Puts them into `page`: those that stand, from behind the first so many on. How many they are.
pub(crate) fn rows_on(page: &mut [Row; 24], s: &[u8], behind: usize, time: u32) -> usize
    ensures { (take result page.new ≡ take 24 (drop behind (standing time (rows_from 0 s.now)))) × (result ≤ 24) }
{
    let mut skip = behind;
    let mut count = 0;
    for place in 0..48 {
        let row = row_at(s, place);
        if row.destination == 0 {
            return count;
        }
        if !row.stands(time) {
            continue;
        }
        if 0 < skip {
            skip -= 1;
            continue;
        }
        page[count] = row;
        count += 1;
        if count == 24 {
            return count;
        }
    }
    count
}
