// What the candidates of an update do to a table's rows, one after the other.
ghost use Rattle.std.specs.Prelude.{◌≡◌, true, ◌≤◌, ◌<◌};
ghost use Rattle.std.specs.List.{position};
ghost use Rattle.octets.specs.Lists.{every};
ghost use Rattle.frame_traffic.specs.Traffic.{entry_rule, entries_of};
ghost use Rattle.route_table.specs.Rows.{in_use};
ghost use Rattle.route_merges.specs.Candidates.{candidates};
ghost use Rattle.route_merges.specs.Comparing.{compared_all};
ghost use Rattle.route_merges.specs.Learning.{learned, learn_all};
ghost use Rattle.route_merges.specs.Searching.{stops, moved_in, Placed, Learns};

use crate::candidate::{Candidate, Heard};
use crate::steps::{changes, made};
use route_table::row::Row;

// How many candidates found no room, and how many rows were compared.
#[derive(Clone, Copy, Debug, PartialEq, Eq)]
pub struct Tally {
    pub skipped: u8,
    pub compared: u16,
}

// The first place that holds no lower row than one for this destination. By one less than it, one test tells a lower row both from a higher one and from a
// place that is not in use; it is made for every row that a merge passes.
fn place_for(rows: &[Row; 48], destination: u16) -> Option<usize>
    requires { 0 < destination }
    ensures { result ≡ position (stops destination) rows.now }
{
    let below = destination - 1;
    rows.iter()
        .position(|row| (row.destination == 0) | (below < row.destination))
}

// Stores a row at a place: each row from there on moves up by one, as far as the first place that is not in use.
fn move_in(rows: &mut [Row; 48], at: usize, row: Row)
    ensures { rows.new ≡ moved_in rows.old at row }
{
    let mut hand = row;
    for i in at..48 {
        let next = rows[i];
        rows[i] = hand;
        if next.destination == 0 {
            return;
        }
        hand = next;
    }
}

// Learns one candidate: it changes the row for its destination, or is moved in where there is none and a place is free.
fn learn(rows: &mut [Row; 48], candidate: Candidate, heard: Heard) -> Tally
    requires { Placed rows.old × (0 < candidate.destination) }
    ensures { Learns heard.origin heard.time candidate rows.old rows.new result.skipped result.compared }
{
    let good = !candidate.bad();
    let Some(at) = place_for(rows, candidate.destination) else {
        return Tally {
            skipped: u8::from(good),
            compared: 48,
        };
    };
    let row = rows[at];
    let compared = at as u16 + u16::from(0 < row.destination);
    if row.destination == candidate.destination {
        if changes(heard, candidate, row) {
            rows[at] = made(heard, candidate, row);
        }
        return Tally {
            skipped: 0,
            compared,
        };
    }
    let full = 0 < rows[47].destination;
    if good & !full {
        move_in(rows, at, made(heard, candidate, row));
    }
    Tally {
        skipped: u8::from(good & full),
        compared,
    }
}

// Learns the origin of an update and what its entries offer, so many of them.
pub(crate) fn learn_all(rows: &mut [Row; 48], part: &[u8], count: u8, heard: Heard) -> Tally
    requires { Placed rows.old × (count ≤ 24) × (0 < heard.origin) × (every entry_rule (entries_of count part.now) ≡ true) }
    ensures { (learned (in_use rows.new) result.skipped ≡ learn_all heard.origin heard.time (candidates heard.own heard.origin heard.quality (entries_of count part.now)) (learned (in_use rows.old) 0)) × (result.compared ≡ compared_all heard.origin heard.time (candidates heard.own heard.origin heard.quality (entries_of count part.now)) (learned (in_use rows.old) 0)) × Placed rows.new }
{
    let mut tally = learn(rows, heard.neighbour(), heard);
    for position in 0..count {
        let Some(candidate) = Candidate::at(part, position, heard) else {
            continue;
        };
        let one = learn(rows, candidate, heard);
        tally.skipped += one.skipped;
        tally.compared += one.compared;
    }
    tally
}
