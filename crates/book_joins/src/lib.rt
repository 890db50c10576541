// A unit that asks to be a member, and a member that asks for more slots or fewer; what each is granted, and the frames that tell it.
#![tactic(auto)]

pub mod asking;
pub mod grants;
pub mod joining;
mod responses;
