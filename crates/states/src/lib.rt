// Whole states: the fresh one, which differ in more than the clock, and which are sound.
#![tactic(auto)]

pub mod fresh;
pub mod same;
pub mod sound;
