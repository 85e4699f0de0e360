// The status octets, the record that shows them, and the records of one call by value.
#![tactic(auto)]

pub mod notes;
pub mod status;
