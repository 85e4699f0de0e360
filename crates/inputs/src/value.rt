// The kind of an input, and what it carries. Each is told from all cases, so that a kind more has to say what it carries.
ghost use Rattle.std.specs.Prelude.{◌≡◌};
ghost use Rattle.rules.specs.Inputs.{kind, scene_number};
ghost use Rattle.inputs.specs.Values.{switch_in, teaches, force_in, event_in};

use rules::input::{Event, Force, Input};

// Stays: a variant with a value has no `as u8`, and a `From` would have to stand beside `Input`, in `rules`, which holds no code.
pub fn kind_of(i: Input) -> u8
    ensures { result ≡ kind i }
{
    match i {
        Input::SwitchOnOff(_) => 1,
        Input::TimedStartStop(_) => 2,
        Input::NumberedSceneControl(..) => 3,
        Input::SwitchOnOffForced(_) => 4,
        Input::LockDevice(_) => 5,
        Input::NightMode(_) => 6,
        Input::Bus(_) => 7,
        Input::Power(_) => 8,
    }
}

// The switch value of kinds 1, 2, 5 and 6.
pub fn switch_in(i: Input) -> bool
    ensures { result ≡ switch_in i }
{
    match i {
        Input::SwitchOnOff(value)
        | Input::TimedStartStop(value)
        | Input::LockDevice(value)
        | Input::NightMode(value) => value,
        Input::NumberedSceneControl(..)
        | Input::SwitchOnOffForced(_)
        | Input::Bus(_)
        | Input::Power(_) => false,
    }
}

// Whether an input is to learn: no other one can change the scene table.
pub fn is_lesson(i: Input) -> bool
    ensures { result ≡ teaches i }
{
    match i {
        Input::NumberedSceneControl(learn, _) => learn,
        Input::SwitchOnOff(_)
        | Input::TimedStartStop(_)
        | Input::SwitchOnOffForced(_)
        | Input::LockDevice(_)
        | Input::NightMode(_)
        | Input::Bus(_)
        | Input::Power(_) => false,
    }
}

// The number of the scene of kind 3.
pub fn scene_in(i: Input) -> u8
    ensures { result ≡ scene_number i }
{
    match i {
        Input::NumberedSceneControl(_, number) => number,
        Input::SwitchOnOff(_)
        | Input::TimedStartStop(_)
        | Input::SwitchOnOffForced(_)
        | Input::LockDevice(_)
        | Input::NightMode(_)
        | Input::Bus(_)
        | Input::Power(_) => 0,
    }
}

// The force of kind 4.
pub fn force_in(i: Input) -> Force
    ensures { result ≡ force_in i }
{
    match i {
        Input::SwitchOnOffForced(force) => force,
        Input::SwitchOnOff(_)
        | Input::TimedStartStop(_)
        | Input::NumberedSceneControl(..)
        | Input::LockDevice(_)
        | Input::NightMode(_)
        | Input::Bus(_)
        | Input::Power(_) => Force::Free,
    }
}

// The event of kinds 7 and 8.
pub fn event_in(i: Input) -> Event
    ensures { result ≡ event_in i }
{
    match i {
        Input::Bus(event) | Input::Power(event) => event,
        Input::SwitchOnOff(_)
        | Input::TimedStartStop(_)
        | Input::NumberedSceneControl(..)
        | Input::SwitchOnOffForced(_)
        | Input::LockDevice(_)
        | Input::NightMode(_) => Event::Failure,
    }
}
