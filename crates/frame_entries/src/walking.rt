// One step of a walk: the entry of an update at a position, and the position behind it.
ghost use Rattle.std.specs.Prelude.{◌≡◌};
ghost use Rattle.frame_entries.specs.Walks.{walk_of, told_walked};

use frame_traffic::entry::Entry;
use frame_traffic::update::{UpdateHeader, entries};
use octets::refusals::Refusal;

#[derive(Drop)]
pub struct Step {
    pub entry: Entry,
    pub next: usize,
}

// The step from a position, counted from 0, or none at the end of the update. Nothing is kept between two steps, so each judges the frame.
#[tactic(auto, unfolding(crate::specs::Walks::walk_of))]
pub fn entry_at(frame: &[u8], position: usize) -> Result<Option<Step>, Refusal>
    ensures { told_walked result ≡ walk_of frame.now position }
{
    UpdateHeader::refusal(frame)?;
    let count = UpdateHeader::of(frame).count;
    if count as usize <= position {
        return Ok(None);
    }
    let entry = Entry::of(entries(frame), position as u8);
    Ok(Some(Step {
        entry,
        next: position + 1,
    }))
}
