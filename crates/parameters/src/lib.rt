// The parameters and their scene table: what octets say, and which are in range.
#![tactic(auto)]

mod range;
pub mod read;
