// Two beacons in one slot, as by two antennas: which of the two frames a unit follows.
#![tactic(auto)]

pub mod choosing;
