// The run over a wall list, for Rattle and for C: checked, then played to the pair of an actuator and a sensor into two lent buffers.
#![tactic(auto)]

pub mod c;
pub mod run;
