// The Light Switching Sensor Basic: two push buttons with four edges. It takes stamped edges and status values and sends stamped switch
// inputs. It stands beside the actuator and knows nothing of it.
#![tactic(auto)]

pub mod action;
pub mod call;
pub mod react;
pub mod signal;
pub mod state;
