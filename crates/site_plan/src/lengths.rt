// The length of a superframe for each number of active slots that a plan may have: a table, since the valve's chip has no divider.
use crate::plan::Plan;

impl Plan {
    pub const LENGTHS: [u8; 51] = [
        0, 4, 7, 10, 14, 17, 20, 24, 27, 30, 34, 37, 40, 44, 47, 50, 54, 57, 60, 64, 67, 70, 74,
        77, 80, 84, 87, 90, 94, 97, 100, 100, 100, 100, 100, 100, 100, 100, 100, 100, 100, 100,
        100, 100, 100, 100, 100, 100, 100, 100, 100,
    ];
}
