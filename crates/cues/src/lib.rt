// The cue file: which octet strings are cue files, and for what the others are refused.
#![tactic(auto)]

pub mod check;
pub mod header;
pub mod known;
