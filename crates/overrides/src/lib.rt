// What outranks an order of the light: force, lock, bus and power.
#![tactic(auto)]

pub mod force;
pub mod link;
pub mod lock;
