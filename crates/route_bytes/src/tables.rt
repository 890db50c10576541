// A table as 539 bytes, the lowest byte of a number first: a head of 11, then 48 rows of 11.
ghost use Rattle.std.specs.Prelude.{◌≡◌, [], length, ◌≤◌};
ghost use Rattle.std.proofs.lemmas.List.Edits.{sets};
ghost use Rattle.octets.specs.Layouts.{fields, bytes};
ghost use Rattle.route_table.specs.Rows.{in_use};
ghost use Rattle.route_table.specs.Tables.{head_of, table_of};
ghost use Rattle.route_bytes.specs.TableBytes.{row_widths, row_values, row_from, head_widths, head_values, place_of, rows_bytes, table_in, table_over};

use octets::stored::Stored;
use octets::zeros::put_zeros;
use route_table::row::Row;
use route_table::table::Head;

// The row in the first 11 bytes of a slice.
pub fn row_in(s: &[u8]) -> Row
    ensures { result ≡ row_from (fields row_widths s.now 0) }
{
    Row {
        destination: u16::read(s, 0),
        next_hop: u16::read(s, 2),
        hops: u8::read(s, 4),
        quality: u8::read(s, 5),
        time: u32::read(s, 6),
        withdrawn: u8::read(s, 10) == 1,
    }
}

// The row at a place, counted from 0. One test of the length spares those of the buffer's end before each field.
#[tactic(auto, unfolding(crate::specs::TableBytes::place_of))]
pub fn row_at(s: &[u8], place: u8) -> Row
    ensures { result ≡ place_of s.now place }
{
    if s.len() != 539 {
        return Row::NONE;
    }
    if 48 <= place {
        return Row::NONE;
    }
    let start = 11 + 11 * (place as usize);
    row_in(&s[start..start + 11])
}

// The head of the table that the bytes hold. A flag that is not 1 is off.
#[tactic(auto, unfolding(crate::specs::TableBytes::table_in))]
pub fn head_of(s: &[u8]) -> Head
    ensures { result ≡ head_of (table_in s.now) }
{
    Head {
        own: u16::read(s, 0),
        time: u32::read(s, 2),
        forwarded: u8::read(s, 6) == 1,
        origin: u16::read(s, 7),
        sequence: u16::read(s, 9),
    }
}

// The bytes of a row, from a place on.
pub fn put_row(out: &mut [u8], place: u16, row: Row)
    ensures { out.new ≡ sets out.old place (bytes row_widths (row_values row)) }
{
    let at = place as usize;
    row.destination.store(out, at);
    row.next_hop.store(out, at + 2);
    row.hops.store(out, at + 4);
    row.quality.store(out, at + 5);
    row.time.store(out, at + 6);
    u8::from(row.withdrawn).store(out, at + 10);
}

pub fn put_head(out: &mut [u8], head: Head)
    ensures { out.new ≡ sets out.old 0 (bytes head_widths (head_values head)) }
{
    head.own.store(out, 0);
    head.time.store(out, 2);
    u8::from(head.forwarded).store(out, 6);
    head.origin.store(out, 7);
    head.sequence.store(out, 9);
}

// The rows in use, behind the head, and how many they are. A part of known length spares a test of the buffer's end before each field.
// Kept: a loop of its own beside those of a book's rows and an image's. One for the three would need a trait, and is no plainer than three short loops.
fn put_rows(out: &mut [u8], rows: &[Row; 48]) -> usize
    requires { length out.old ≡ 539 }
    ensures { (out.new ≡ sets out.old 11 (rows_bytes (in_use rows.now))) × (result ≡ length (in_use rows.now)) × (result ≤ 48) }
{
    for (used, row) in rows.iter().enumerate() {
        if row.destination == 0 {
            return used;
        }
        let start = 11 + 11 * used;
        put_row(&mut out[start..start + 11], 0, *row);
    }
    48
}

// The table with this head and the rows in use among these; zeros stand behind them. A buffer of another length than a table has stays as it is.
#[tactic(auto, unfolding(crate::specs::TableBytes::table_over))]
pub fn put_table(out: &mut [u8], head: Head, rows: [Row; 48])
    ensures { out.new ≡ table_over out.old (table_of head (in_use rows)) }
{
    if out.len() != 539 {
        return;
    }
    put_head(out, head);
    let used = put_rows(out, &rows);
    put_zeros(out, 11 + 11 * used, 528 - 11 * used);
}

// The table with this head and no rows.
#[tactic(auto, unfolding(crate::specs::TableBytes::table_over))]
pub fn put_empty(out: &mut [u8], head: Head)
    ensures { out.new ≡ table_over out.old (table_of head []) }
{
    if out.len() != 539 {
        return;
    }
    put_head(out, head);
    put_zeros(out, 11, 528);
}
