// 0x47, the short beacon: what a unit needs of a beacon, in 19 bytes.
ghost use Rattle.std.specs.Prelude.{◌≡◌, ◌∷◌, []};
ghost use Rattle.std.proofs.lemmas.List.Edits.{sets};
ghost use Rattle.octets.specs.Layouts.{bytes};
ghost use Rattle.frame_beacons.specs.ShortBeacons.{short_beacon, short_beacon_values};
ghost use Rattle.frame_kinds.specs.Shape.{values_in};
ghost use Rattle.frame_kinds.specs.Reading.{refusal_as};
ghost use Rattle.octets.specs.Refusals.{status_of};

use frame_kinds::judging::refused;
use octets::addresses::is_address;
use octets::refusals::Refusal;
use octets::stored::Stored;

#[derive(Clone, Copy)]
pub struct ShortBeacon {
    pub source: u16,
    pub network: u16,
    pub total_slots: u8,
    pub slot_ms: u16,
    pub hop: u8,
    pub original_time: u32,
    pub delay: u16,
    pub max_hops: u8,
    pub sequence: u16,
}

impl ShortBeacon {
    // The fields where they stand in a frame of this kind.
    pub fn of(s: &[u8]) -> ShortBeacon
        ensures { short_beacon_values result ≡ values_in short_beacon s.now }
    {
        ShortBeacon {
            source: u16::read(s, 1),
            network: u16::read(s, 3),
            total_slots: u8::read(s, 5),
            slot_ms: u16::read(s, 6),
            hop: u8::read(s, 8),
            original_time: u32::read(s, 9),
            delay: u16::read(s, 13),
            max_hops: u8::read(s, 15),
            sequence: u16::read(s, 16),
        }
    }

    // Whether the fields keep their rules.
    pub fn good(self) -> bool
        ensures { result ≡ short_beacon.rule (short_beacon_values self) [] }
    {
        is_address(self.source)
            & (1 <= self.network)
            & ((1 <= self.total_slots) & (self.total_slots <= 100))
            & (1 <= self.slot_ms)
            & ((1 <= self.max_hops) & (self.max_hops <= 10))
            & (self.hop <= self.max_hops)
    }

    // Why bytes are no frame of this kind.
    pub fn refusal(s: &[u8]) -> Result<(), Refusal>
        ensures { status_of result ≡ refusal_as short_beacon s.now }
    {
        refused(s, 0x47, 19, ShortBeacon::of(s).good())
    }

    // The type, then the fields.
    pub fn numbers(self) -> [u32; 10]
        ensures { result ≡ short_beacon.code ∷ short_beacon_values self }
    {
        [
            0x47,
            u32::from(self.source),
            u32::from(self.network),
            u32::from(self.total_slots),
            u32::from(self.slot_ms),
            u32::from(self.hop),
            self.original_time,
            u32::from(self.delay),
            u32::from(self.max_hops),
            u32::from(self.sequence),
        ]
    }

    // Writes the type and the fields where they stand, from the buffer's start.
    pub fn put(self, out: &mut [u8])
        ensures { out.new ≡ sets out.old 0 (bytes (1 ∷ short_beacon.widths) (short_beacon.code ∷ short_beacon_values self)) }
    {
        0x47u8.store(out, 0);
        self.source.store(out, 1);
        self.network.store(out, 3);
        self.total_slots.store(out, 5);
        self.slot_ms.store(out, 6);
        self.hop.store(out, 8);
        self.original_time.store(out, 9);
        self.delay.store(out, 13);
        self.max_hops.store(out, 15);
        self.sequence.store(out, 16);
    }
}
