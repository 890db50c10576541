// One entry of a routing update: a route that the update's origin knows.
ghost use Rattle.std.specs.Prelude.{◌≡◌};
ghost use Rattle.std.proofs.lemmas.List.Edits.{sets};
ghost use Rattle.octets.specs.Layouts.{bytes};
ghost use Rattle.octets.specs.Lists.{every};
ghost use Rattle.frame_traffic.specs.Traffic.{entry_widths, entry_values, entry_rule, entry_at, entries_of};

use octets::addresses::is_address;
use octets::stored::Stored;

#[derive(Drop)]
pub struct Entry {
    pub destination: u16,
    pub hops: u8,
    pub quality: u8,
    pub next_hop: u16,
    pub timestamp: u32,
}

impl Entry {
    // The entry at a position, counted from 0, of the bytes behind an update's header.
    pub fn of(part: &[u8], position: u8) -> Entry
        ensures { result ≡ entry_at part.now position }
    {
        let place = 10 * usize::from(position);
        Entry {
            destination: u16::read(part, place),
            hops: u8::read(part, place + 2),
            quality: u8::read(part, place + 3),
            next_hop: u16::read(part, place + 4),
            timestamp: u32::read(part, place + 6),
        }
    }

    // Whether the fields keep their rules.
    pub fn good(self) -> bool
        ensures { result ≡ entry_rule self }
    {
        is_address(self.destination)
            & is_address(self.next_hop)
            & (((1 <= self.hops) & (self.hops <= 16)) | (self.hops == 255))
    }

    // Writes the fields where they stand, from the buffer's start.
    pub fn put(self, out: &mut [u8])
        ensures { out.new ≡ sets out.old 0 (bytes entry_widths (entry_values self)) }
    {
        self.destination.store(out, 0);
        self.hops.store(out, 2);
        self.quality.store(out, 3);
        self.next_hop.store(out, 4);
        self.timestamp.store(out, 6);
    }
}

// Whether each of the first entries keeps its rules.
// Kept: tried as `(0..count).all(..)`: the search did not close its proof. The loop has no way out, as `zeros_from` of octets has none.
pub fn entries_good(part: &[u8], count: u8) -> bool
    ensures { result ≡ every entry_rule (entries_of count part.now) }
{
    let mut good = true;
    for position in 0..count {
        good = good & Entry::of(part, position).good();
    }
    good
}
