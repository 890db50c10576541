// Merging an update into a table that lies in bytes: it is judged there, and only its rows in use are read.
ghost use Rattle.std.specs.Prelude.{◌≡◌};
ghost use Rattle.octets.specs.Refusals.{status_of};
ghost use Rattle.route_bytes.specs.StoredTables.{stored_table};
ghost use Rattle.route_bytes.specs.TableBytes.{table_in};
ghost use Rattle.route_merges.specs.Merges.{merge_refusal};
ghost use Rattle.route_merges.specs.StoredMerges.{merged_in, merge_call};

use crate::candidate::Heard;
use crate::learning::{Tally, learn_all};
use crate::merging::why_unmerged;
use frame_traffic::update::{UpdateHeader, entries};
use octets::refusals::{Refusal, refuse_if};
use route_bytes::tables::{head_of, put_table};
use route_in_place::judging::holds_table;
use route_in_place::standing::standing_rows;
use route_table::table::Head;

// Why an update is not merged into the table that bytes hold, or that they hold none.
fn why_unmerged_in(s: &[u8], frame: &[u8], quality: u8, time: u32) -> Result<(), Refusal>
    ensures { status_of result ≡ stored_table s.now (merge_refusal (table_in s.now) frame.now quality time) }
{
    refuse_if(!holds_table(s), Refusal::Rule)?;
    let head = head_of(s);
    why_unmerged(head.own, head.time, frame, quality, time)
}

// Merges an update that was heard with this quality. Nothing is written before it is known that nothing refuses it.
pub fn merge_in(table: &mut [u8], frame: &[u8], quality: u8, time: u32) -> Result<Tally, Refusal>
    ensures { merged_in result table.new ≡ merge_call table.old frame.now quality time 0 0 }
{
    why_unmerged_in(&table[..], frame, quality, time)?;
    let head = head_of(&table[..]);
    let header = UpdateHeader::of(frame);
    let mut rows = standing_rows(&table[..], time);
    let heard = Heard {
        own: head.own,
        origin: header.origin,
        quality,
        time,
    };
    let tally = learn_all(&mut rows, entries(frame), header.count, heard);
    put_table(table, Head { time, ..head }, rows);
    Ok(tally)
}
