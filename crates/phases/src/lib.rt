// What a timer and each order makes of a phase.
#![tactic(auto)]

pub mod order;
pub mod phase;
