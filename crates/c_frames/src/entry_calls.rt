// The entries of a routing update, one a call: the caller keeps the frame's bytes and the position.
ghost use Rattle.std.specs.Prelude.{◌≡◌, ◌≤◌, length};
ghost use Rattle.std.proofs.lemmas.List.Edits.{sets};
ghost use Rattle.frame_traffic.specs.Traffic.{entry_values};
ghost use Rattle.c_frames.specs.EntryCalls.{entry_left, entry_call};

use frame_entries::reader::walk;
use frame_traffic::entry::Entry;
use octets::refusals::Refusal;

const ENTRY_FIELDS: usize = 5;

// The fields of an entry, from the buffer's start on.
fn put_entry(out: &mut [u32], entry: Entry)
    requires { 5 ≤ length out.old }
    ensures { out.new ≡ sets out.old 0 (entry_values entry) }
{
    out[0] = u32::from(entry.destination);
    out[1] = u32::from(entry.hops);
    out[2] = u32::from(entry.quality);
    out[3] = u32::from(entry.next_hop);
    out[4] = entry.timestamp;
}

// The entry of an update at a position, counted from 0, and the next position. At the end no entry is put, and the next position is 0.
pub fn braidlark_entry(frame: &[u8], position: u32, entry: &mut [u32], next: &mut u32) -> u8
    ensures { entry_left result entry.new next.new ≡ entry_call frame.now position entry.old next.old }
{
    match walk(frame, position as usize) {
        Ok(Some(step)) => {
            if entry.len() < ENTRY_FIELDS {
                return Refusal::Room.number();
            }
            let met = step.entry;
            put_entry(entry, met);
            *next = step.next as u32;
            0
        }
        Ok(None) => {
            *next = 0;
            0
        }
        Err(refusal) => refusal.number(),
    }
}
