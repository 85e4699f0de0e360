// The parameters of an actuator and its scene table, as read from the octets of either version.

// The version of the file that they are of, and by which they are judged. The four times are in tenths of a second; the modes have the numbers of the file.
// Stays: a state that is handed in may hold any numbers as its modes, which `modes_in_range` then refuses, so no enum of the good ones holds them.
#[derive(Clone, Copy)]
pub struct Params {
    pub version: u8,
    pub ondelay: u32,
    pub offdelay: u32,
    pub timedon: u32,
    pub prewarning: u32,
    pub locking: u8,
    pub unlocking: u8,
    pub busfailure: u8,
    pub busreturn: u8,
    pub powerreturn: u8,
    pub learning: bool,
}

// One of eight entries: the scene's number (255: unused), the output that it recalls, and whether it was taught in.
#[derive(Clone, Copy, PartialEq, Eq)]
pub struct Scene {
    pub number: u8,
    pub value: bool,
    pub taught: bool,
}
