// The numbers of the kinds and of the events, and the times of document 01, by their names there.
// Kept: sixteen numbers beside the two enums, since each is public by its name (PROMISES) and names its variant.
use crate::kinds::{Event, Kind};
use crate::state::State;

impl State {
    pub const INITIALIZING: u8 = Kind::Initializing as u8;

    pub const DISCOVERY: u8 = Kind::Discovery as u8;

    pub const JOINING: u8 = Kind::Joining as u8;

    pub const NORMAL: u8 = Kind::Normal as u8;

    pub const MANAGER: u8 = Kind::Manager as u8;

    pub const RECOVERY: u8 = Kind::Recovery as u8;

    pub const STOPPED: u8 = Kind::Stopped as u8;

    pub const READY: u8 = Event::Ready as u8;

    pub const FAILED: u8 = Event::Failed as u8;

    pub const BEACON: u8 = Event::Beacon as u8;

    pub const ACCEPTED: u8 = Event::Accepted as u8;

    pub const DENIED: u8 = Event::Denied as u8;

    pub const FAULT: u8 = Event::Fault as u8;

    pub const ELECTED: u8 = Event::Elected as u8;

    pub const ROLE_CHANGE: u8 = Event::RoleChange as u8;

    pub const RECOVERED: u8 = Event::Recovered as u8;

    pub const DISCOVERY_MS: u32 = 30_000;

    pub const JOINING_MS: u32 = 10_000;

    pub const RECOVERY_MS: u32 = 60_000;

    pub const LONGEST_TICKED_MS: u32 = 6_553_500;
}
