// A reader of an update's entries: the caller's bytes, lent and not copied, and a position among the entries.
ghost use Rattle.std.specs.Prelude.{◌≡◌};
ghost use Rattle.frame_entries.specs.Walks.{walk_of, told_walked};

use crate::walking::{Step, entry_at};
use octets::refusals::Refusal;

#[derive(Drop)]
pub struct Entries<'a> {
    pub frame: &'a [u8],
    pub position: usize,
}

impl<'a> Entries<'a> {
    // A reader before the first entry.
    pub fn of(frame: &'a [u8]) -> Entries<'a>
        ensures { (result.frame ≡ frame.entry) × (result.position ≡ 0) }
    {
        Entries { frame, position: 0 }
    }

    // The reader of the same bytes at another position.
    pub fn moved(self, position: usize) -> Entries<'a>
        ensures { (result.frame ≡ self.entry.frame) × (result.position ≡ position) }
    {
        Entries { position, ..self }
    }

    // The entry at the reader's position and the position behind it, or the end.
    pub fn next(self) -> Result<Option<Step>, Refusal>
        ensures { told_walked result ≡ walk_of self.entry.frame.now self.entry.position }
    {
        entry_at(self.frame, self.position)
    }
}

// A step of the walk, for a caller that keeps bytes and position itself.
pub fn walk(frame: &[u8], position: usize) -> Result<Option<Step>, Refusal>
    ensures { told_walked result ≡ walk_of frame.now position }
{
    Entries::of(frame).moved(position).next()
}
