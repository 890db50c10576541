// Which unit is to be the manager: a unit's poll of the election messages that it heard, judged and changed where its bytes lie.
#![tactic(auto)]

pub mod poll;
pub mod voter;
