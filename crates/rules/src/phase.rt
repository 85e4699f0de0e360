// The phases of the output. A phase that becomes another by itself carries the moment at which it does, its deadline.
#[derive(Clone, Copy, PartialEq, Eq)]
pub enum Phase {
    Dark,
    Lit,
    // whether it is timed, and its deadline
    Starting(bool, u32),
    Timed(u32),
    Warning(u32),
    Ending(u32),
}
