// The rows of a table that lies in bytes, without those that are gone.
ghost use Rattle.std.specs.Prelude.{◌≡◌};
ghost use Rattle.route_table.specs.Rows.{pad, standing};
ghost use Rattle.route_bytes.specs.TableBytes.{rows_in};

use route_bytes::tables::row_at;
use route_table::row::Row;

// Nothing is read behind the rows in use.
pub fn standing_rows(s: &[u8], time: u32) -> [Row; 48]
    ensures { result ≡ pad (standing time (rows_in s.now)) }
{
    let mut out = [Row::NONE; 48];
    let mut n = 0;
    for place in 0..48 {
        let row = row_at(s, place);
        if row.destination == 0 {
            return out;
        }
        if !row.stands(time) {
            continue;
        }
        out[n] = row;
        n += 1;
    }
    out
}
