// What a candidate does to the row for its destination.
ghost use Rattle.std.specs.Prelude.{◌≡◌};
ghost use Rattle.route_merges.specs.Searching.{alters, made};

use crate::candidate::{Candidate, Heard};
use route_table::row::Row;

// Whether it changes it.
pub(crate) fn changes(heard: Heard, candidate: Candidate, row: Row) -> bool
    ensures { result ≡ alters heard.origin heard.time candidate row }
{
    let usable = row.usable(heard.time);
    let same = row.next_hop == heard.origin;
    if candidate.bad() {
        return usable & same;
    }
    let hops = u16::from(row.hops);
    // Kept: three tests and no comparison of tuples: tried, the proof did not close.
    let fewer = candidate.hops < hops;
    let better = (candidate.hops == hops) & (row.quality < candidate.quality);
    !usable | same | fewer | better
}

// The row that a candidate makes: a bad one withdraws the row that was there.
pub(crate) fn made(heard: Heard, candidate: Candidate, row: Row) -> Row
    ensures { result ≡ made heard.origin heard.time candidate row }
{
    if candidate.bad() {
        return Row {
            time: heard.time,
            withdrawn: true,
            ..row
        };
    }
    Row {
        destination: candidate.destination,
        next_hop: heard.origin,
        hops: candidate.hops as u8,
        quality: candidate.quality,
        time: heard.time,
        withdrawn: false,
    }
}
