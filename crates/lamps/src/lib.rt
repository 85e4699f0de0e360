// The lamp: what inputs and timers change of a state, and what more than one order asks of it.
#![tactic(auto)]

pub mod lamp;
