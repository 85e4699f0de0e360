// What the public calls of the pair give.
// Stays: code, place and count are numbers and the records an array with blanks, as those of the actuator alone (`JointCodes`).
use rules::record::Record;
use rules::state::State;
use sensor::state::Sensor;

// One input: what a single input gives, the sensor, and what it sent, in eight octets, all zero where it sent nothing.
#[derive(Clone, Copy)]
pub struct Joint {
    pub state: State,
    pub sensor: Sensor,
    pub code: u8,
    pub place: u16,
    pub answer: u8,
    pub count: u8,
    pub records: [Record; 3],
    pub sent: [u8; 8],
}

// A clock move.
#[derive(Clone, Copy)]
pub struct JointMove {
    pub state: State,
    pub sensor: Sensor,
    pub code: u8,
    pub place: u16,
    pub count: u8,
    pub records: [Record; 2],
}

// The run over a wall list.
#[derive(Clone, Copy)]
pub struct WallRan {
    pub state: State,
    pub sensor: Sensor,
    pub code: u8,
    pub place: u16,
    pub count: u32,
}
