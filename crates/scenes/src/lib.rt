// The scene table, eight entries: what recalling and learning make of it, which tables are in range, and which are the same.
#![tactic(auto)]

pub mod range;
pub mod same;
pub mod table;
