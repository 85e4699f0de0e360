// An item's turn, where a list is played into lent buffers: what it asks of the actuator, once the sensor has heard the records that stand
// there.
#![tactic(auto)]

pub mod heard;
pub mod turn;
