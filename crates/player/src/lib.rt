// Items are played into lent buffers, to an actuator with a sensor beside it: each of them once, in order, with no table and no list.
#![tactic(auto)]

pub mod items;
