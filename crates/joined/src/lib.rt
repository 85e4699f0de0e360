// The actuator and a sensor beside it, joined: one input to the pair, and a clock move of the pair, by value.
// Neither call has a condition on its caller, and each is specified whole, refusals too (crates/pairs/specs/Calls.antt).
#![tactic(auto)]

pub mod hear;
pub mod item;
pub mod pair;
pub mod step;
