// The copy that a forwarder sends of a beacon: of the kind that it heard, with this unit as source, one hop further and so much later.
ghost use Rattle.std.specs.Prelude.{◌≡◌, [], ◌+◌, ◌≤◌, length};
ghost use Rattle.std.proofs.lemmas.List.Edits.{sets};
ghost use Rattle.frame_kinds.specs.Shape.{frame_of};
ghost use Rattle.frame_beacons.specs.Beacons as beacons;
ghost use Rattle.frame_beacons.specs.Beacons.{beacon_values};
ghost use Rattle.frame_beacons.specs.ShortBeacons.{short_beacon, short_beacon_values};
ghost use Rattle.route_forwards.specs.Copies.{passed_by, short_passed_by, copy_by, copy_size, longest_delay, Fitting};

use frame_beacons::beacon::Beacon;
use frame_beacons::either::is_short;
use frame_beacons::short::ShortBeacon;
use frame_kinds::sealing::seal;

// How many bytes a beacon of this kind has.
pub(crate) fn copy_size(short: bool) -> u8
    ensures { result ≡ copy_size short }
{
    if short { 19 } else { 34 }
}

// The longest delay that it has room for.
pub(crate) fn longest_delay(short: bool) -> u32
    ensures { result ≡ longest_delay short }
{
    if short { 0xFFFF } else { 0xFFFFFFFF }
}

// A beacon that was read keeps its rules, and so does its copy.
// Kept: this and `put_short_copy` are two functions, since a trait with contracts for the few lines that they share is longer than both.
#[tactic(auto, unfolding(crate::specs::Copies::passed_by))]
fn put_copy(out: &mut [u8], own: u16, delay: u32, beacon: Beacon)
    requires { (beacon.hop + 1 ≤ 255) × (beacon.delay + delay ≤ 0xFFFFFFFF) × (34 ≤ length out.old) }
    ensures { out.new ≡ sets out.old 0 (frame_of beacons.beacon (beacon_values (passed_by own delay beacon)) []) }
{
    let copy = Beacon {
        source: own,
        hop: beacon.hop + 1,
        delay: beacon.delay + delay,
        ..beacon
    };
    copy.put(&mut out[..33]);
    seal(out, 33);
}

// The same of a short one, whose delay has two bytes.
#[tactic(auto, unfolding(crate::specs::Copies::short_passed_by))]
fn put_short_copy(out: &mut [u8], own: u16, delay: u32, beacon: ShortBeacon)
    requires { (beacon.hop + 1 ≤ 255) × (beacon.delay + delay ≤ 0xFFFF) × (19 ≤ length out.old) }
    ensures { out.new ≡ sets out.old 0 (frame_of short_beacon (short_beacon_values (short_passed_by own delay beacon)) []) }
{
    let later = u32::from(beacon.delay) + delay;
    let copy = ShortBeacon {
        source: own,
        hop: beacon.hop + 1,
        delay: later as u16,
        ..beacon
    };
    copy.put(&mut out[..18]);
    seal(out, 18);
}

// Writes the copy of the beacon that the bytes are, of either kind.
pub(crate) fn put_copy_of(out: &mut [u8], own: u16, delay: u32, frame: &[u8])
    requires { Fitting frame.now delay (length out.old) }
    ensures { out.new ≡ sets out.old 0 (copy_by own delay frame.now) }
{
    if is_short(frame) {
        put_short_copy(out, own, delay, ShortBeacon::of(frame));
        return;
    }
    put_copy(out, own, delay, Beacon::of(frame));
}
