// Records as octets in a lent buffer, and the report of a run as one number.
#![tactic(auto)]

pub mod put;
pub mod report;
