// The public calls of the sensor, by value: the fresh sensor from four octets, and one input. Neither has a condition on its caller.
ghost use Rattle.std.specs.Prelude.{◌≡◌};
ghost use Rattle.sensor.specs.Calls.{fresh_sensor_call, telegram_octets, sensed, sensor_refused, sensor_call};

use crate::action::check_actions;
use crate::react::{Reaction, react};
use crate::signal::signal_at;
use crate::state::{Sensor, fresh_with, is_sound, own_sensor};
use base::moment::stamp_in_range;
use base::refusal::{Refusal, Refused};
use octets::group::Group;

// What four octets of actions give.
// Stays: `fresh_sensor_refused_exactly_when` speaks of its code and its place, 0 where the sensor is the octets' own.
#[derive(Clone, Copy)]
pub struct FreshSensor {
    pub sensor: Sensor,
    pub code: u8,
    pub place: u16,
}

// What one input gives: at most one switch input, in eight octets, all zero where nothing is sent.
// Stays: `sensor_refused_exactly_when` speaks of its code and its place, 0 where the signal is taken.
#[derive(Clone, Copy)]
pub struct Sensed {
    pub sensor: Sensor,
    pub code: u8,
    pub place: u16,
    pub sent: [u8; 8],
}

// Any octets: four actions give the fresh sensor, all others a refusal with its place and its own sensor.
#[tactic(auto, using(crate::proofs::Actions::passed_has_four), unfolding(crate::specs::Calls::fresh_sensor_call, crate::specs::Calls::fresh_sensor_by))]
pub fn fresh_sensor(octets: &[u8]) -> FreshSensor
    ensures whole { result ≡ fresh_sensor_call octets.now }
{
    match check_actions(octets) {
        Ok(()) => FreshSensor {
            sensor: fresh_with(octets),
            code: 0,
            place: 0,
        },
        Err(Refused { why, place }) => FreshSensor {
            sensor: own_sensor(),
            code: u8::from(why),
            place,
        },
    }
}

// A telegram at t, as a switch input.
#[tactic(auto, using(base::proofs::Tests::stored), unfolding(crate::specs::Calls::telegram_octets, octets::specs::BigEndian::octets32))]
pub fn telegram_octets(t: u32, telegram: Option<bool>) -> [u8; 8]
    ensures { result ≡ telegram_octets t telegram }
{
    match telegram {
        None => [0; 8],
        Some(on) => {
            let [b0, b1, b2, b3] = t.to_be_bytes();
            [b0, b1, b2, b3, 1, on as u8, 0, 0]
        }
    }
}

#[tactic(auto, unfolding(crate::specs::Calls::sensed))]
fn accepted(t: u32, r: Reaction) -> Sensed
    ensures { result ≡ sensed t r }
{
    Sensed {
        sensor: r.sensor,
        code: 0,
        place: 0,
        sent: telegram_octets(t, r.telegram),
    }
}

#[tactic(auto, unfolding(crate::specs::Calls::sensor_refused))]
fn refused(z: Sensor, why: Refusal) -> Sensed
    ensures { result ≡ sensor_refused z why }
{
    Sensed {
        sensor: z,
        code: u8::from(why),
        place: 0,
        sent: telegram_octets(0, None),
    }
}

// Eight octets: the sensor after the signal and what it sends, or a refusal that hands back the sensor it was given.
#[tactic(auto, unfolding(crate::specs::Calls::sensor_call, crate::specs::Calls::sensor_meant))]
pub fn sensor_input(z: Sensor, octets: [u8; 8]) -> Sensed
    ensures whole { result ≡ sensor_call z octets }
{
    if !is_sound(z) {
        return refused(z, Refusal::UnsoundState);
    }
    let group = Group::new(&octets, 0);
    let Some(signal) = signal_at(group) else {
        return refused(z, Refusal::BadInput);
    };
    let t = group.stamp();
    if stamp_in_range(z.clock, t) {
        accepted(t, react(z, signal, t))
    } else {
        refused(z, Refusal::BadStamp)
    }
}
