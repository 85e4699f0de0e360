// What a sensor makes of a signal: the value that it keeps, and what it sends.
ghost use Rattle.std.specs.Prelude.{◌≡◌};
ghost use Rattle.sensor.specs.Reactions.{sends, hear, press, react};

use crate::action::Action;
use crate::signal::{Edge, Signal};
use crate::state::Sensor;

#[derive(Clone, Copy)]
pub struct Reaction {
    pub sensor: Sensor,
    pub telegram: Option<bool>,
}

// What an action sends, where this value was the last one sent or received.
fn sent_by(action: Action, last: bool) -> Option<bool>
    ensures { result ≡ sends action last }
{
    match action {
        Action::Nothing => None,
        Action::SendOff => Some(false),
        Action::SendOn => Some(true),
        Action::SendInverse => Some(!last),
    }
}

// A value that is sent or received at t is the last one from then on.
#[tactic(auto, unfolding(crate::specs::Reactions::hear))]
pub fn hear(z: Sensor, t: u32, value: bool) -> Sensor
    ensures { result ≡ hear z t value }
{
    Sensor {
        clock: t,
        value,
        ..z
    }
}

// An edge with this action, at t.
#[tactic(auto, unfolding(crate::specs::Reactions::press))]
fn press(z: Sensor, action: Action, t: u32) -> Reaction
    ensures { result ≡ press z action t }
{
    let telegram = sent_by(action, z.value);
    Reaction {
        sensor: hear(z, t, telegram.unwrap_or(z.value)),
        telegram,
    }
}

// A signal at t.
#[tactic(auto, unfolding(crate::specs::Reactions::react))]
pub fn react(z: Sensor, s: Signal, t: u32) -> Reaction
    ensures { result ≡ react z s t }
{
    match s {
        Signal::Button1(Edge::Falling) => press(z, z.falling1, t),
        Signal::Button1(Edge::Rising) => press(z, z.rising1, t),
        Signal::Button2(Edge::Falling) => press(z, z.falling2, t),
        Signal::Button2(Edge::Rising) => press(z, z.rising2, t),
        Signal::Status(value) => Reaction {
            sensor: hear(z, t, value),
            telegram: None,
        },
    }
}
