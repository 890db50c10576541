// A beacon of either kind: what a unit that hears one needs of it, wherever it stands in the frame.
ghost use Rattle.std.specs.Prelude.{◌≡◌, eqb};
ghost use Rattle.octets.specs.Numbers.{num};
ghost use Rattle.octets.specs.Refusals.{status_of};
ghost use Rattle.frame_beacons.specs.EitherBeacons.{of_beacon, of_short, is_short, either_refusal, either_in, refusal_for};

use crate::beacon::Beacon;
use crate::short::ShortBeacon;
use octets::refusals::{Refusal, refuse_if};
use octets::stored::Stored;

// Kept: `original_source` is 0 where the kind has none, and `short` says which kind. The fields are public, and `of`, which docs/PROMISES.md names, promises
// the very record that `either_in` of specs/ is. With an `Option` there, callers would still ask which kind it is: for its longest delay, and its size.
#[derive(Clone, Copy)]
pub struct EitherBeacon {
    pub original_time: u32,
    pub delay: u32,
    pub source: u16,
    pub network: u16,
    pub original_source: u16,
    pub sequence: u16,
    pub hop: u8,
    pub max_hops: u8,
    pub short: bool,
}

// Whether the type is that of the short kind.
pub fn is_short(s: &[u8]) -> bool
    ensures { result ≡ is_short s.now }
{
    u8::read(s, 0) == 0x47
}

impl From<Beacon> for EitherBeacon {
    fn from(beacon: Beacon) -> EitherBeacon
        ensures { result ≡ of_beacon beacon }
    {
        EitherBeacon {
            original_time: beacon.original_time,
            delay: beacon.delay,
            source: beacon.source,
            network: beacon.network,
            original_source: beacon.original_source,
            sequence: beacon.sequence,
            hop: beacon.hop,
            max_hops: beacon.max_hops,
            short: false,
        }
    }
}

impl From<ShortBeacon> for EitherBeacon {
    fn from(beacon: ShortBeacon) -> EitherBeacon
        ensures { result ≡ of_short beacon }
    {
        EitherBeacon {
            original_time: beacon.original_time,
            delay: u32::from(beacon.delay),
            source: beacon.source,
            network: beacon.network,
            original_source: 0,
            sequence: beacon.sequence,
            hop: beacon.hop,
            max_hops: beacon.max_hops,
            short: true,
        }
    }
}

// The network alone, and the hop: who needs no more of a beacon spares reading all of it.
fn network_in(s: &[u8]) -> u16
    ensures { result ≡ (either_in s.now).network }
{
    if is_short(s) {
        return u16::read(s, 3);
    }
    u16::read(s, 6)
}

pub fn hop_in(s: &[u8]) -> u8
    ensures { result ≡ (either_in s.now).hop }
{
    if is_short(s) {
        return u8::read(s, 8);
    }
    u8::read(s, 21)
}

impl EitherBeacon {
    // What the bytes say as the kind that their type is.
    pub fn of(s: &[u8]) -> EitherBeacon
        ensures { result ≡ either_in s.now }
    {
        if is_short(s) {
            return EitherBeacon::from(ShortBeacon::of(s));
        }
        EitherBeacon::from(Beacon::of(s))
    }

    // Why bytes are no beacon of either kind.
    pub fn refusal(s: &[u8]) -> Result<(), Refusal>
        ensures { status_of result ≡ either_refusal s.now }
    {
        if is_short(s) {
            return ShortBeacon::refusal(s);
        }
        Beacon::refusal(s)
    }

    // Why they are none for a unit of this network.
    #[tactic(auto, unfolding(crate::specs::EitherBeacons::refusal_for))]
    pub fn refusal_for(network: u16, s: &[u8]) -> Result<(), Refusal>
        ensures { status_of result ≡ refusal_for network s.now }
    {
        EitherBeacon::refusal(s)?;
        refuse_if(network == 0, Refusal::Field)?;
        refuse_if(network_in(s) != network, Refusal::Network)
    }
}
