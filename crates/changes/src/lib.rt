// A whole scene change in one call: up to 256 inputs to a state, played into lent buffers until one is refused.
#![tactic(auto)]

pub mod change;
pub mod play;
