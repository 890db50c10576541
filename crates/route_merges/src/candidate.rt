// What a neighbour offers: a destination, so many hops away by it, with a quality.
ghost use Rattle.std.specs.Prelude.{◌≡◌};
ghost use Rattle.frame_traffic.specs.Traffic.{entry_at};
ghost use Rattle.route_merges.specs.Candidates.{neighbour, offered, bad};
ghost use Rattle.route_merges.specs.Offering.{offer_of};

use frame_traffic::entry::Entry;
use route_table::row::Row;

// Which unit heard an update, from which origin, how well, and when.
#[derive(Clone, Copy)]
pub(crate) struct Heard {
    pub(crate) own: u16,
    pub(crate) origin: u16,
    pub(crate) quality: u8,
    pub(crate) time: u32,
}

impl Heard {
    // The origin itself.
    pub(crate) fn neighbour(self) -> Candidate
        ensures { result ≡ neighbour self.origin self.quality }
    {
        Candidate {
            destination: self.origin,
            hops: 1,
            quality: self.quality,
        }
    }
}

// One hop more than an unreachable entry has is 256.
#[derive(Clone, Copy)]
pub struct Candidate {
    pub destination: u16,
    pub hops: u16,
    pub quality: u8,
}

impl Candidate {
    fn offered(quality: u8, entry: Entry) -> Candidate
        ensures { result ≡ offered quality entry }
    {
        let sum = u16::from(entry.quality) + u16::from(quality);
        Candidate {
            destination: entry.destination,
            hops: u16::from(entry.hops) + 1,
            quality: (sum / 2) as u8,
        }
    }

    // The candidate that an entry is, none where it is passed over.
    fn from_entry(entry: Entry, heard: Heard) -> Option<Candidate>
        ensures { result ≡ offer_of heard.own heard.origin heard.quality entry }
    {
        let passed_over = (entry.destination == heard.own)
            | (entry.destination == heard.origin)
            | (entry.next_hop == heard.own);
        if passed_over {
            return None;
        }
        Some(Candidate::offered(heard.quality, entry))
    }

    // That of the entry of an update at a position. A part of known length spares a test of the end before each field.
    pub(crate) fn at(part: &[u8], position: u8, heard: Heard) -> Option<Candidate>
        ensures { result ≡ offer_of heard.own heard.origin heard.quality (entry_at part.now position) }
    {
        let start = 10 * (position as usize);
        let end = start + 10;
        if part.len() < end {
            return Candidate::from_entry(Entry::of(part, position), heard);
        }
        Candidate::from_entry(Entry::of(&part[start..end], 0), heard)
    }

    pub(crate) fn bad(self) -> bool
        ensures { result ≡ bad self }
    {
        (u16::from(Row::MOST_HOPS) < self.hops) | (self.quality < Row::LEAST_QUALITY)
    }
}
