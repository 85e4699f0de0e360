// The public calls by value: the fresh state from parameters, a single input, a clock move.
// None of them has a condition on its caller, and each is specified whole, refusals too (crates/rules/specs/Calls.antt).
#![tactic(auto)]

pub mod clock;
pub mod fresh;
pub mod single;
