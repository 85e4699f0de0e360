// Inputs: eight octets, with a stamp, a kind and a value, and what they carry once they are known.
#![tactic(auto)]

ghost use Rattle.std.specs.Prelude.{◌≡◌, true};
ghost use Rattle.rules.specs.Inputs.{force_of, decoded, input_at};
ghost use Rattle.inputs.specs.Meaning.{is_meant, event_of};

use octets::group::Group;
use rules::input::{Event, Force, Input};

pub mod value;

// The greatest kind of the actuator's own: what is known of greater ones is another device's.
pub const LAST_KIND: u8 = 8;

// Whether a kind and a value mean an input. Every kind takes 0 and 1; only a scene and a force take more.
// The value is asked for first: with one match on the kind an input of a mixed show took 151 instructions where it takes 146.
// Stays: the kind is the octet that was read, as `decoded` is of any.
#[tactic(auto, unfolding(rules::specs::Inputs::decoded, rules::specs::Inputs::zero_or_one, rules::specs::Inputs::scene_meant, rules::specs::Inputs::force_meant))]
fn is_known(kind: u8, value: u8) -> bool
    ensures { result ≡ is_meant (decoded kind value) }
{
    if value <= 1 {
        return matches!(kind, 1..=LAST_KIND);
    }
    match kind {
        3 => value / 64 % 2 == 0,
        4 => value <= 3,
        _ => false,
    }
}

// Of a value that is 0 or 1: 0 is a failure, 1 a return.
// Stays: a `From<bool>` would have to stand beside `Event`, in `rules`, which holds no code.
fn known_event(one: bool) -> Event
    ensures { result ≡ event_of one }
{
    if one { Event::Return } else { Event::Failure }
}

// Of a value up to 3: without its control bit it frees, whatever its other bit says.
// Stays: a `From<u8>` would have to stand beside `Force`, in `rules`, which holds no code.
#[tactic(auto, unfolding(rules::specs::Inputs::force_of))]
pub fn known_force(value: u8) -> Force
    ensures { result ≡ force_of value }
{
    match value {
        2 => Force::Off,
        3 => Force::On,
        _ => Force::Free,
    }
}

// The input that a kind and a value mean, where they mean one: nothing is tested but the kind.
#[tactic(auto, unfolding(rules::specs::Inputs::decoded, rules::specs::Inputs::zero_or_one, rules::specs::Inputs::scene_meant, rules::specs::Inputs::force_meant, rules::specs::Inputs::force_of))]
pub fn known_input(kind: u8, value: u8) -> Input
    requires { is_meant (decoded kind value) ≡ true }
    ensures { decoded kind value ≡ Some result }
{
    let one = value == 1;
    match kind {
        1 => Input::SwitchOnOff(one),
        2 => Input::TimedStartStop(one),
        // bit 7 is learn, bit 6 is zero, the other six bits are the number
        3 => Input::NumberedSceneControl(value / 128 == 1, value % 64),
        4 => Input::SwitchOnOffForced(known_force(value)),
        5 => Input::LockDevice(one),
        6 => Input::NightMode(one),
        7 => Input::Bus(known_event(one)),
        _ => Input::Power(known_event(one)),
    }
}

// Whether eight octets are an input.
#[tactic(auto, unfolding(rules::specs::Inputs::input_at))]
pub fn is_input_at(group: Group) -> bool
    ensures { result ≡ is_meant (input_at group.entry.octets.now group.entry.at) }
{
    group.ends_in_zeros() && is_known(group.kind(), group.value())
}

// What eight octets mean.
#[tactic(auto, using(crate::proofs::Meaning::known_at))]
pub fn input_at(group: Group) -> Option<Input>
    ensures { result ≡ input_at group.entry.octets.now group.entry.at }
{
    if is_input_at(group) {
        Some(known_input(group.kind(), group.value()))
    } else {
        None
    }
}
