// The seven states of a unit, by value; events and ticks hand the next state back; and a state as the bytes that a C caller keeps.
#![tactic(auto)]

mod events;
mod kinds;
mod names;
pub mod state;
pub mod state_bytes;
mod table;
mod ticks;
