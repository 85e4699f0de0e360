// Which input counts: the barriers of each kind as one table, and the first that an input meets.
#![tactic(auto)]

pub mod barrier;
