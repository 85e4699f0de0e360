// Moments, in tenths of a second.
ghost use Rattle.std.specs.Prelude.{◌≡◌, ◌+◌, ◌≤◌};
ghost use Rattle.base.specs.Refusals.{stamp_in_range};

// The last stamp, and the longest delay.
pub const LAST_STAMP: u32 = 864000;

pub const LONGEST_DELAY: u32 = 655350;

// A moment, and a delay after it.
pub fn later(t: u32, delay: u32) -> u32
    requires { (t ≤ 2000000) × (delay ≤ 2000000) }
    ensures { result ≡ t + delay }
{
    t + delay
}

// A stamp is not below the clock and not past the last stamp.
#[tactic(auto, unfolding(crate::specs::Refusals::stamp_in_range))]
pub fn stamp_in_range(clock: u32, stamp: u32) -> bool
    ensures { result ≡ stamp_in_range clock stamp }
{
    clock <= stamp && stamp <= LAST_STAMP
}
