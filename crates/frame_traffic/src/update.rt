// 0x31, the routing update: the routes that its origin knows.
ghost use Rattle.std.specs.Prelude.{◌≡◌, ◌∷◌};
ghost use Rattle.std.proofs.lemmas.List.Edits.{sets};
ghost use Rattle.octets.specs.Layouts.{bytes};
ghost use Rattle.frame_traffic.specs.Traffic.{update, update_values};
ghost use Rattle.frame_kinds.specs.Shape.{values_in, part_lent};
ghost use Rattle.frame_kinds.specs.Reading.{refusal_as};
ghost use Rattle.octets.specs.Parts.{lent};
ghost use Rattle.octets.specs.Refusals.{status_of};

use crate::entry::entries_good;
use frame_kinds::judging::refused;
use octets::addresses::is_address;
use octets::parts::part;
use octets::refusals::Refusal;
use octets::stored::Stored;

// `count` is how many entries follow.
#[derive(Clone, Copy)]
pub struct UpdateHeader {
    pub origin: u16,
    pub count: u8,
    pub time: u32,
}

impl UpdateHeader {
    // The fields where they stand in a frame of this kind.
    pub fn of(s: &[u8]) -> UpdateHeader
        ensures { update_values result ≡ values_in update s.now }
    {
        UpdateHeader {
            origin: u16::read(s, 1),
            count: u8::read(s, 3),
            time: u32::read(s, 4),
        }
    }

    // Whether the fields and the entries' bytes keep their rules.
    pub fn good(self, entries: &[u8]) -> bool
        ensures { result ≡ update.rule (update_values self) entries.now }
    {
        is_address(self.origin) & entries_good(entries, self.count)
    }

    // Why bytes are no frame of this kind.
    pub fn refusal(s: &[u8]) -> Result<(), Refusal>
        ensures { status_of result ≡ refusal_as update s.now }
    {
        let header = UpdateHeader::of(s);
        refused(
            s,
            0x31,
            9 + 10 * usize::from(header.count),
            header.good(entries(s)),
        )
    }

    // The type, then the fields.
    pub fn numbers(self) -> [u32; 4]
        ensures { result ≡ update.code ∷ update_values self }
    {
        [
            0x31,
            u32::from(self.origin),
            u32::from(self.count),
            self.time,
        ]
    }

    // Writes the type and the fields where they stand, from the buffer's start.
    pub fn put(self, out: &mut [u8])
        ensures { out.new ≡ sets out.old 0 (bytes (1 ∷ update.widths) (update.code ∷ update_values self)) }
    {
        0x31u8.store(out, 0);
        self.origin.store(out, 1);
        self.count.store(out, 3);
        self.time.store(out, 4);
    }
}

// The bytes of the entries of an update, as a part of the caller's bytes.
pub fn entries(s: &[u8]) -> &[u8]
    ensures { lent result ≡ part_lent update (lent s.entry) }
{
    part(s, 8, 10 * usize::from(u8::read(s, 3)))
}
