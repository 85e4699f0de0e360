// The run over a cue file, for Rattle and for C: checked, then played into the two lent buffers.
#![tactic(auto)]

pub mod c;
pub mod run;
