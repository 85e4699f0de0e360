// A pair as octets, as a step hands it over, sound or not, and as it is printed.
use crate::show::Part;
use images::put::put_image;
use images::read::state_in;
use rules::state::State;
use sensor::state::{Sensor, fresh_with};
use std::fmt;

// The image of the actuator's state.
#[derive(Clone, Copy)]
pub(crate) struct StateOctets(pub [u8; 56]);

impl From<StateOctets> for State {
    fn from(octets: StateOctets) -> State {
        state_in(&octets.0)
    }
}

impl From<State> for StateOctets {
    fn from(state: State) -> StateOctets {
        let mut image = [0u8; 56];
        put_image(&mut image, state);
        StateOctets(image)
    }
}

// A sensor: its four actions, its clock in four octets, its value.
#[derive(Clone, Copy)]
pub(crate) struct SensorOctets(pub [u8; 9]);

impl From<SensorOctets> for Sensor {
    // The actions are those of a fresh sensor, which are its first four octets too.
    fn from(octets: SensorOctets) -> Sensor {
        let [_, _, _, _, a, b, c, d, value] = octets.0;
        Sensor {
            clock: u32::from_be_bytes([a, b, c, d]),
            value: value == 1,
            ..fresh_with(&octets.0)
        }
    }
}

impl From<Sensor> for SensorOctets {
    fn from(sensor: Sensor) -> SensorOctets {
        let [a, b, c, d] = sensor.clock.to_be_bytes();
        SensorOctets([
            sensor.rising1 as u8,
            sensor.falling1 as u8,
            sensor.rising2 as u8,
            sensor.falling2 as u8,
            a,
            b,
            c,
            d,
            sensor.value as u8,
        ])
    }
}

// Stays: octets from step to step, since S, C and H print the sensor as P handed it over, also where no sensor is printed so.
#[derive(Clone, Copy)]
pub(crate) struct Pair {
    pub state: StateOctets,
    pub sensor: SensorOctets,
}

impl Pair {
    // What the steps begin with.
    pub const ZERO: Pair = Pair {
        state: StateOctets([0; 56]),
        sensor: SensorOctets([0; 9]),
    };

    pub fn new(state: State, sensor: Sensor) -> Pair {
        Pair {
            state: state.into(),
            sensor: sensor.into(),
        }
    }
}

// A sensor is the last part of a line, a pair the last two.

impl fmt::Display for SensorOctets {
    fn fmt<W: fmt::Write>(&self, f: &mut fmt::Formatter<W>) -> fmt::Result {
        write!(f, "{}", Part(&self.0))
    }
}

impl fmt::Display for Pair {
    fn fmt<W: fmt::Write>(&self, f: &mut fmt::Formatter<W>) -> fmt::Result {
        write!(f, "{}{}", Part(&self.state.0), self.sensor)
    }
}
