// The rows of a sheet and its links in the caller's bytes. A part of known length spares a test of the buffer's end before each field.
ghost use Rattle.std.specs.Prelude.{◌≡◌, ◌/◌, ◌%◌, ◌<◌, eqb, length};
ghost use Rattle.site_sheet.specs.Seen.{row_at, ends_at};
ghost use Rattle.site_sheet.specs.SheetBytes.{row_size, link_size};

use octets::stored::Stored;

const ROW_SIZE: usize = 10;

const LINK_SIZE: usize = 4;

// A unit, and the mask of its slots.
#[derive(Clone, Copy)]
pub(crate) struct Row {
    pub unit: u16,
    pub slots: u64,
}

// The two units of a link.
#[derive(Clone, Copy)]
pub(crate) struct Ends {
    pub one: u16,
    pub other: u16,
}

// How many whole rows there are.
// Kept: they are counted by hand, since the chip that this is for has no divider.
pub(crate) fn row_count(sheet: &[u8]) -> usize
    ensures { result ≡ length sheet.now / row_size }
{
    let mut left = sheet.len();
    let mut count = 0;
    while ROW_SIZE <= left {
        left -= ROW_SIZE;
        count += 1;
    }
    count
}

// Whether the bytes are a whole number of rows.
pub fn whole_rows(sheet: &[u8]) -> bool
    ensures { result ≡ eqb (length sheet.now % row_size) 0 }
{
    ROW_SIZE * row_count(sheet) == sheet.len()
}

pub(crate) fn row_at(sheet: &[u8], place: usize) -> Row
    requires { place < length sheet.now / row_size }
    ensures { result ≡ row_at sheet.now place }
{
    let start = ROW_SIZE * place;
    let end = start + ROW_SIZE;
    let row = &sheet[start..end];
    Row {
        unit: u16::read(row, 0),
        slots: u64::read(row, 2),
    }
}

pub(crate) fn link_count(links: &[u8]) -> usize
    ensures { result ≡ length links.now / link_size }
{
    links.len() / LINK_SIZE
}

pub fn whole_links(links: &[u8]) -> bool
    ensures { result ≡ eqb (length links.now % link_size) 0 }
{
    links.len() % LINK_SIZE == 0
}

// Kept: beside `row_at`, since a row and a link have fields of their own; one reader of parts of any size would need a proof of products.
pub(crate) fn link_at(links: &[u8], place: usize) -> Ends
    requires { place < length links.now / link_size }
    ensures { result ≡ ends_at links.now place }
{
    let start = LINK_SIZE * place;
    let end = start + LINK_SIZE;
    let link = &links[start..end];
    Ends {
        one: u16::read(link, 0),
        other: u16::read(link, 2),
    }
}
