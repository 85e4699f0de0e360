// The clock moves: every timer that is due runs at its own moment.
#![tactic(auto)]

pub mod clock;
