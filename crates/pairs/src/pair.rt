// The pair.
use rules::state::State;
use sensor::state::Sensor;

// The actuator and a sensor beside it.
#[derive(Clone, Copy)]
pub struct Pair {
    pub actuator: State,
    pub sensor: Sensor,
}
