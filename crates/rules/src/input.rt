// An input is one of eight kinds, each with its own value.

// What SwitchOnOffForced asks for, and the force that stands.
#[derive(Clone, Copy, PartialEq, Eq)]
pub enum Force {
    Free,
    Off,
    On,
}

// What happens to the bus or to the power.
#[derive(Clone, Copy)]
pub enum Event {
    Failure,
    Return,
}

#[derive(Clone, Copy)]
pub enum Input {
    SwitchOnOff(bool),
    TimedStartStop(bool),
    // whether to learn, and the scene number
    NumberedSceneControl(bool, u8),
    SwitchOnOffForced(Force),
    LockDevice(bool),
    NightMode(bool),
    Bus(Event),
    Power(Event),
}
