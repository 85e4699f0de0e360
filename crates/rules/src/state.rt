// The state of one actuator. 01, "Phases": "The state holds its parameters and current scene table, the clock, night, lock, force
// (none, off, on), link (up, bus down, power down), the outputs remembered at locking and at power failure, and one phase,
// some with a deadline".
use crate::input::Force;
use crate::parameters::{Params, Scene};
use crate::phase::Phase;

#[derive(Clone, Copy, PartialEq, Eq)]
pub enum Link {
    Up,
    BusDown,
    PowerDown,
}

#[derive(Clone, Copy)]
pub struct State {
    pub params: Params,
    pub scenes: [Scene; 8],
    pub clock: u32,
    pub night: bool,
    pub lock: bool,
    pub force: Force,
    pub link: Link,
    // the outputs remembered at locking and at power failure
    pub atlocking: bool,
    pub atfailure: bool,
    pub phase: Phase,
}
