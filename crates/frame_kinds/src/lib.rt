// What a kind of frame is, what reading and writing one means, the tests of bytes that every kind shares, and the checksum behind them.
#![tactic(auto)]

pub mod judging;
pub mod sealing;
