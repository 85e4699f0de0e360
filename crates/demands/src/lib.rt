// What the customer demands, and that it is met: the end theorems, on top of all that `rules` and `pairs` prove. This crate has no
// code, and nothing stands on it.
#![tactic(auto)]
