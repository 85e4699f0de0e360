// One input to an actuator: the clock moves to its stamp, then it acts, is noted, or is dropped for good.
#![tactic(auto)]

pub mod step;
