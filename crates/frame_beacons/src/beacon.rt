// 0x46, the beacon: the manager's time and superframe, passed on hop by hop.
ghost use Rattle.std.specs.Prelude.{◌≡◌, ◌∷◌, []};
ghost use Rattle.std.proofs.lemmas.List.Edits.{sets};
ghost use Rattle.octets.specs.Layouts.{bytes};
ghost use Rattle.frame_beacons.specs.Beacons.{beacon, beacon_values};
ghost use Rattle.frame_kinds.specs.Shape.{values_in};
ghost use Rattle.frame_kinds.specs.Reading.{refusal_as};
ghost use Rattle.octets.specs.Refusals.{status_of};

use frame_kinds::judging::refused;
use octets::addresses::is_address;
use octets::refusals::Refusal;
use octets::stored::Stored;

#[derive(Clone, Copy)]
pub struct Beacon {
    pub destination: u16,
    pub source: u16,
    pub size: u8,
    pub network: u16,
    pub superframe_number: u32,
    pub superframe_ms: u16,
    pub total_slots: u8,
    pub slot_ms: u32,
    pub original_source: u16,
    pub hop: u8,
    pub original_time: u32,
    pub delay: u32,
    pub max_hops: u8,
    pub sequence: u16,
}

impl Beacon {
    // The fields where they stand in a frame of this kind.
    pub fn of(s: &[u8]) -> Beacon
        ensures { beacon_values result ≡ values_in beacon s.now }
    {
        Beacon {
            destination: u16::read(s, 1),
            source: u16::read(s, 3),
            size: u8::read(s, 5),
            network: u16::read(s, 6),
            superframe_number: u32::read(s, 8),
            superframe_ms: u16::read(s, 12),
            total_slots: u8::read(s, 14),
            slot_ms: u32::read(s, 15),
            original_source: u16::read(s, 19),
            hop: u8::read(s, 21),
            original_time: u32::read(s, 22),
            delay: u32::read(s, 26),
            max_hops: u8::read(s, 30),
            sequence: u16::read(s, 31),
        }
    }

    // Whether the fields keep their rules.
    pub fn good(self) -> bool
        ensures { result ≡ beacon.rule (beacon_values self) [] }
    {
        (self.destination == 0xFFFF)
            & is_address(self.source)
            & (self.size == 27)
            & (1 <= self.network)
            & ((1 <= self.total_slots) & (self.total_slots <= 100))
            & (1 <= self.slot_ms)
            & is_address(self.original_source)
            & ((1 <= self.max_hops) & (self.max_hops <= 10))
            & (self.hop <= self.max_hops)
            & (u64::from(self.superframe_ms)
                == u64::from(self.total_slots) * u64::from(self.slot_ms))
    }

    // Why bytes are no frame of this kind.
    pub fn refusal(s: &[u8]) -> Result<(), Refusal>
        ensures { status_of result ≡ refusal_as beacon s.now }
    {
        refused(s, 0x46, 34, Beacon::of(s).good())
    }

    // The type, then the fields.
    pub fn numbers(self) -> [u32; 15]
        ensures { result ≡ beacon.code ∷ beacon_values self }
    {
        [
            0x46,
            u32::from(self.destination),
            u32::from(self.source),
            u32::from(self.size),
            u32::from(self.network),
            self.superframe_number,
            u32::from(self.superframe_ms),
            u32::from(self.total_slots),
            self.slot_ms,
            u32::from(self.original_source),
            u32::from(self.hop),
            self.original_time,
            self.delay,
            u32::from(self.max_hops),
            u32::from(self.sequence),
        ]
    }

    // Writes the type and the fields where they stand, from the buffer's start.
    pub fn put(self, out: &mut [u8])
        ensures { out.new ≡ sets out.old 0 (bytes (1 ∷ beacon.widths) (beacon.code ∷ beacon_values self)) }
    {
        0x46u8.store(out, 0);
        self.destination.store(out, 1);
        self.source.store(out, 3);
        self.size.store(out, 5);
        self.network.store(out, 6);
        self.superframe_number.store(out, 8);
        self.superframe_ms.store(out, 12);
        self.total_slots.store(out, 14);
        self.slot_ms.store(out, 15);
        self.original_source.store(out, 19);
        self.hop.store(out, 21);
        self.original_time.store(out, 22);
        self.delay.store(out, 26);
        self.max_hops.store(out, 30);
        self.sequence.store(out, 31);
    }
}
