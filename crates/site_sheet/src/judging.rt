// Who offends: the lowest unit, and the first pair.
ghost use Rattle.std.specs.Prelude.{◌≡◌, ◌<◌, ◌≤◌};
ghost use Rattle.slot_sets.specs.Sets.{slots_of};
ghost use Rattle.site_sheet.specs.Seen.{known_at, known_in, clashing, known_unit, found_unit, found_pair, soonest_with};
ghost use Rattle.site_sheet.specs.SheetBytes.{sheet_in};
ghost use Rattle.site_sheet.specs.Sheets.{Proposed};
ghost use Rattle.site_sheet.specs.Verdicts.{unit_rule, bad_units, alone, both, pairs, pairs_with, sooner, found, soonest};

use crate::checking::Pair;
use crate::rows::Row;
use crate::sheet::Sheet;
use slot_sets::masks::{apart, below, holds, is_empty, one_to_four, without};

// A row, its place, and the mask of its neighbours' places.
#[derive(Clone, Copy)]
pub(crate) struct Known {
    pub row: Row,
    pub place: u32,
    pub neighbours: u64,
}

impl Known {
    // Whether this one and another, the lower first, share a slot and are near. Most pairs share none, and it is seen first.
    fn clashes(self, other: Known) -> bool
        ensures { result ≡ clashing self other }
    {
        if apart(self.row.slots, other.row.slots) {
            return false;
        }
        let linked = holds(self.neighbours, other.place);
        let common = !apart(self.neighbours, other.neighbours);
        (self.row.unit < other.row.unit) & (linked | common)
    }
}

impl Row {
    // Whether it has 1 to 4 slots, and none past the plan's.
    fn good(self, data_slots: u8) -> bool
        ensures { result ≡ unit_rule data_slots (record { unit = self.unit; slots = slots_of self.slots }) }
    {
        one_to_four(self.slots) & is_empty(without(self.slots, below(data_slots as u32)))
    }
}

// The lower of a unit and of one that was found before.
// Kept: beside `Pair::sooner`, since each states an order of the definitions; a generic minimum would state neither.
fn lower(unit: u16, before: Option<u16>) -> u16
    ensures { found (alone result) ≡ found (sooner (alone unit) (found_unit before)) }
{
    match before {
        Some(other) => unit.min(other),
        None => unit,
    }
}

impl Pair {
    // The first of this pair and of one that was found before.
    fn sooner(self, before: Option<Pair>) -> Pair
        ensures { found (both result.lower result.higher) ≡ found (sooner (both self.lower self.higher) (found_pair before)) }
    {
        match before {
            Some(other) => self.min(other),
            None => self,
        }
    }
}

impl Sheet<'_> {
    // The lowest unit that breaks the rule of a unit.
    pub(crate) fn first_unit(self, data_slots: u8) -> Option<u16>
        ensures { found_unit result ≡ soonest (bad_units data_slots (sheet_in self.entry.bytes.now)) }
    {
        let mut best = None;
        for place in (0..self.count).rev() {
            let row = self.row_at(place);
            if row.good(data_slots) {
                continue;
            }
            best = Some(lower(row.unit, best));
        }
        best
    }
}

// A sheet, and of each of its places the places of its neighbours.
// Kept: the masks stand beside the sheet's rows, and not in them: the rows are read from the caller's bytes.
#[derive(Drop)]
pub(crate) struct Linked<'a> {
    pub sheet: Sheet<'a>,
    pub masks: [u64; 21],
    ghost few: { sheet.count ≤ 21 },
}

impl Linked<'_> {
    fn known_at(&self, place: usize) -> Known
        requires { place < self.now.sheet.count }
        ensures { result ≡ known_at self.now.sheet.bytes.now self.now.masks place }
    {
        Known {
            row: self.sheet.row_at(place),
            place: place as u32,
            neighbours: self.masks[place],
        }
    }

    // The first of the pairs that a unit begins, and of what was found before.
    fn first_with(&self, one: Known, before: Option<Pair>) -> Option<Pair>
        ensures { found_pair result ≡ soonest_with (pairs_with clashing known_unit one (known_in self.now.sheet.bytes.now self.now.masks)) (found_pair before) }
    {
        let mut best = before;
        for place in (0..self.sheet.count).rev() {
            let other = self.known_at(place);
            if !one.clashes(other) {
                continue;
            }
            let pair = Pair {
                lower: one.row.unit,
                higher: other.row.unit,
            };
            best = Some(pair.sooner(best));
        }
        best
    }

    // The first pair that shares a slot and is near, by the neighbours' places.
    pub(crate) fn first_pair(&self) -> Option<Pair>
        ensures { found_pair result ≡ soonest (pairs clashing known_unit (known_in self.now.sheet.bytes.now self.now.masks)) }
    {
        let mut best = None;
        for place in (0..self.sheet.count).rev() {
            best = self.first_with(self.known_at(place), best);
        }
        best
    }
}
