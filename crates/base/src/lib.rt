// What every other crate may stand on: moments, and the refusals with their numbers.
#![tactic(auto)]

pub mod moment;
pub mod refusal;
