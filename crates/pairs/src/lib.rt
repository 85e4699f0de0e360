// The actuator and a sensor beside it, joined over one list: types, definitions and theorems. There is no code here.
#![tactic(auto)]

pub mod call;
pub mod item;
pub mod pair;
