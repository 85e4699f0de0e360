// The state of a sensor: the actions of its edges, its clock, and the last value that it sent or received.
ghost use Rattle.std.specs.Prelude.{◌≡◌, ◌≤◌, length};
ghost use Rattle.sensor.specs.Sensors.{fresh_sensor, own_sensor, sound_sensor};

use crate::action::Action;
use base::moment::LAST_STAMP;

#[derive(Clone, Copy)]
pub struct Sensor {
    pub rising1: Action,
    pub falling1: Action,
    pub rising2: Action,
    pub falling2: Action,
    pub clock: u32,
    pub value: bool,
}

// The fresh sensor with the actions of four octets.
#[tactic(auto, unfolding(crate::specs::Sensors::fresh_sensor))]
pub fn fresh_with(octets: &[u8]) -> Sensor
    requires { 4 ≤ length octets.now }
    ensures { result ≡ fresh_sensor octets.now }
{
    Sensor {
        rising1: octets[0].into(),
        falling1: octets[1].into(),
        rising2: octets[2].into(),
        falling2: octets[3].into(),
        clock: 0,
        value: false,
    }
}

// The sensor of a refusal: no edge does anything.
#[tactic(auto, unfolding(crate::specs::Sensors::own_sensor))]
pub fn own_sensor() -> Sensor
    ensures { result ≡ own_sensor }
{
    Sensor {
        rising1: Action::Nothing,
        falling1: Action::Nothing,
        rising2: Action::Nothing,
        falling2: Action::Nothing,
        clock: 0,
        value: false,
    }
}

// No action can be out of range: only the clock can be.
#[tactic(auto, unfolding(crate::specs::Sensors::sound_sensor))]
pub fn is_sound(z: Sensor) -> bool
    ensures { result ≡ sound_sensor z }
{
    z.clock <= LAST_STAMP
}
