// A sheet in the caller's bytes, with the number of its rows: it is counted once.
ghost use Rattle.std.specs.Prelude.{◌≡◌, ◌/◌, ◌<◌, ◌≤◌, leb, length};
ghost use Rattle.octets.specs.Lists.{every};
ghost use Rattle.site_sheet.specs.Seen.{row_at, Searched};
ghost use Rattle.site_sheet.specs.SheetBytes.{row_size, sheet_in};
ghost use Rattle.site_sheet.specs.Sheets.{distinct, unit_addressed};

use crate::rows::{Row, row_at, row_count};
use octets::addresses::is_address;

// Kept: the count stands beside the bytes, since to count them again is a loop: the chip that this is for has no divider.
#[derive(Clone, Copy)]
pub(crate) struct Sheet<'a> {
    pub bytes: &'a [u8],
    pub count: usize,
    ghost counted: { count ≡ length bytes.now / row_size },
}

impl<'a> Sheet<'a> {
    pub(crate) fn new(bytes: &'a [u8]) -> Sheet<'a>
        ensures { result.bytes.now ≡ bytes.now }
    {
        let count = row_count(bytes);
        Sheet { bytes, count }
    }

    pub(crate) fn row_at(self, place: usize) -> Row
        requires { place < self.count }
        ensures { result ≡ row_at self.entry.bytes.now place }
    {
        row_at(self.bytes, place)
    }

    // Whether there is a member row for each unit.
    pub(crate) fn fits(self, rows: u8) -> bool
        ensures { result ≡ leb (length (sheet_in self.entry.bytes.now)) rows }
    {
        self.count <= rows as usize
    }

    // The first place of a unit from a place on.
    // Kept: tried as `(from..self.count).find(..)`: the search did not close its proof.
    pub(crate) fn place_from(self, from: usize, unit: u16) -> Option<usize>
        requires { from ≤ self.count }
        ensures { Searched self.entry.bytes.now from unit result }
    {
        for place in from..self.count {
            if self.row_at(place).unit == unit {
                return Some(place);
            }
        }
        None
    }

    // Whether the unit of each row is an address.
    pub(crate) fn addressed(self) -> bool
        ensures { result ≡ every unit_addressed (sheet_in self.entry.bytes.now) }
    {
        let mut good = true;
        for place in (0..self.count).rev() {
            good = is_address(self.row_at(place).unit) & good;
        }
        good
    }

    // Whether no unit is listed twice: none stands behind its place once more.
    pub(crate) fn distinct(self) -> bool
        ensures { result ≡ distinct (sheet_in self.entry.bytes.now) }
    {
        let mut good = true;
        for place in (0..self.count).rev() {
            let unit = self.row_at(place).unit;
            good = self.place_from(place + 1, unit).is_none() & good;
        }
        good
    }
}
