// Sets of data slots, as the masks that a member's row keeps.
#![tactic(auto)]

pub mod masks;
