// What a reader must believe (with time, refusals and octets, in the specs/ of `base` and `octets`): the types of the actuator here, its
// rules in specs/, the theorems about them in proofs/.
// This crate has no code of its own; the crates above it hold the code that is proved to follow these rules.
#![tactic(auto)]

pub mod barrier;
pub mod call;
pub mod form;
pub mod input;
pub mod parameters;
pub mod phase;
pub mod record;
pub mod state;
