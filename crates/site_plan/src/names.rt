// The limits and times of document 01's plan, by their names there.
use crate::plan::Plan;

impl Plan {
    pub const MOST_HOPS: u8 = 10;

    pub const FEWEST_ROWS: u8 = 2;

    pub const FEWEST_DISCOVERY_SLOTS: u16 = 2;

    pub const MOST_ACTIVE: u16 = 50;

    pub const MOST_SLOTS: u32 = 100;

    pub const SHORTEST_SLOT_MS: u16 = 1;

    pub const LONGEST_SLOT_MS: u16 = 65_535;

    pub const LONGEST_SUPERFRAME_MS: u32 = 65_535;

    // The kinds of beacons that a manager may send, by their types.
    pub const BEACON: u8 = 0x46;

    pub const SHORT_BEACON: u8 = 0x47;

    // How long a member is live after its last accepted call.
    pub const LIVE_MS: u32 = 300_000;
}
