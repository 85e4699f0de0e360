// What may stop an input.

// The barriers of one kind of input: power down, bus down, lock, force.
#[derive(Clone, Copy)]
pub struct Row {
    pub power: bool,
    pub bus: bool,
    pub lock: bool,
    pub force: bool,
}

// Why an input is stopped.
#[derive(Clone, Copy)]
pub enum Why {
    NoPower,
    NoBus,
    Locked,
    Forced,
}

// What an input meets: nothing, a barrier that notes it, or the first that stops it.
#[derive(Clone, Copy)]
pub enum Barrier {
    Open,
    Notes,
    Stopped(Why),
}
