// 0x11, data: an order or a reading on its way to a unit.
ghost use Rattle.std.specs.Prelude.{◌≡◌, ◌∷◌, []};
ghost use Rattle.frame_traffic.specs.Traffic.{data_kind, data_values};
ghost use Rattle.frame_kinds.specs.Shape.{values_in, part_lent};
ghost use Rattle.frame_kinds.specs.Reading.{refusal_as};
ghost use Rattle.octets.specs.Parts.{lent};
ghost use Rattle.octets.specs.Refusals.{status_of};

use frame_kinds::judging::refused;
use octets::addresses::is_address;
use octets::parts::part;
use octets::refusals::Refusal;
use octets::stored::Stored;

// `count` is how many bytes of payload follow.
#[derive(Clone, Copy)]
pub struct DataHeader {
    pub source: u16,
    pub destination: u16,
    pub ttl: u8,
    pub sequence: u16,
    pub count: u8,
}

impl DataHeader {
    // The fields where they stand in a frame of this kind.
    pub fn of(s: &[u8]) -> DataHeader
        ensures { data_values result ≡ values_in data_kind s.now }
    {
        DataHeader {
            source: u16::read(s, 1),
            destination: u16::read(s, 3),
            ttl: u8::read(s, 5),
            sequence: u16::read(s, 6),
            count: u8::read(s, 8),
        }
    }

    // Whether the fields keep their rules.
    pub fn good(self) -> bool
        ensures { result ≡ data_kind.rule (data_values self) [] }
    {
        is_address(self.source) & is_address(self.destination)
    }

    // Why bytes are no frame of this kind.
    pub fn refusal(s: &[u8]) -> Result<(), Refusal>
        ensures { status_of result ≡ refusal_as data_kind s.now }
    {
        let header = DataHeader::of(s);
        refused(s, 0x11, 10 + usize::from(header.count), header.good())
    }

    // The type, then the fields.
    pub fn numbers(self) -> [u32; 6]
        ensures { result ≡ data_kind.code ∷ data_values self }
    {
        [
            0x11,
            u32::from(self.source),
            u32::from(self.destination),
            u32::from(self.ttl),
            u32::from(self.sequence),
            u32::from(self.count),
        ]
    }
}

// The payload of a data frame, as a part of the caller's bytes.
pub fn payload(s: &[u8]) -> &[u8]
    ensures { lent result ≡ part_lent data_kind (lent s.entry) }
{
    part(s, 9, usize::from(u8::read(s, 8)))
}
