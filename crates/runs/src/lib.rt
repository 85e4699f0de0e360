// A checked list is played from the fresh state of its own parameters to its end time. A cue file is such a list, without edges.
#![tactic(auto)]

pub mod play;
pub mod run;
