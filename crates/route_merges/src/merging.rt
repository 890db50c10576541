// Merging an update into a table by value, and what this shares with merging into one that lies in bytes.
ghost use Rattle.std.specs.Prelude.{◌≡◌};
ghost use Rattle.octets.specs.Answers.{first};
ghost use Rattle.octets.specs.Refusals.{status_of};
ghost use Rattle.route_merges.specs.Merges.{unmerged_reasons, merge_of};
ghost use Rattle.route_merges.specs.Outcomes.{merged};

use crate::candidate::Heard;
use crate::learning::{Tally, learn_all};
use frame_traffic::update::{UpdateHeader, entries};
use moments::in_order;
use octets::refusals::{Refusal, refuse_if};
use route_table::row::Row;
use route_table::standing::standing_places;
use route_table::table::Table;

// What a merge gives: the new table, and what learning it took.
#[derive(Drop)]
pub struct Merging {
    pub table: Table,
    pub tally: Tally,
}

// Why a table within rule of the unit `own`, with this last accepted time, does not merge an update.
pub(crate) fn why_unmerged(
    own: u16,
    last: u32,
    frame: &[u8],
    quality: u8,
    time: u32,
) -> Result<(), Refusal>
    ensures { status_of result ≡ first (unmerged_reasons own last frame.now quality time) }
{
    UpdateHeader::refusal(frame)?;
    refuse_if(UpdateHeader::of(frame).origin == own, Refusal::Own)?;
    refuse_if(!in_order(last, time), Refusal::Earlier)?;
    refuse_if(quality < Row::LEAST_QUALITY, Refusal::Quality)
}

// Merges an update that was heard with this quality.
pub fn merge(table: Table, frame: &[u8], quality: u8, time: u32) -> Result<Merging, Refusal>
    ensures { merged table result ≡ merge_of table frame.now quality time }
{
    refuse_if(!table.within_rule(), Refusal::Rule)?;
    why_unmerged(table.own, table.time, frame, quality, time)?;
    let header = UpdateHeader::of(frame);
    let mut rows = standing_places(table.rows, time);
    let heard = Heard {
        own: table.own,
        origin: header.origin,
        quality,
        time,
    };
    let tally = learn_all(&mut rows, entries(frame), header.count, heard);
    Ok(Merging {
        table: Table {
            time,
            rows,
            ..table
        },
        tally,
    })
}
