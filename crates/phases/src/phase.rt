// The phases: their outputs, their deadlines, and what becomes of each at its deadline.
ghost use Rattle.std.specs.Prelude.{◌≡◌, ◌+◌, ◌≤◌};
ghost use Rattle.rules.specs.Phases.{output, deadline, lit_at, at_deadline, own_end, set_on};
ghost use Rattle.base.specs.Time.{last_stamp, longest_delay};
ghost use Rattle.rules.specs.Status.{staircase};
ghost use Rattle.rules.specs.Answers.{due};
ghost use Rattle.phases.specs.Room.{Room};

use base::moment::later;
use rules::parameters::Params;
use rules::phase::Phase;

// Whether the output is on.
pub fn output_of(phase: Phase) -> bool
    ensures { result ≡ output phase }
{
    match phase {
        Phase::Dark | Phase::Starting(_, _) => false,
        Phase::Lit | Phase::Timed(_) | Phase::Warning(_) | Phase::Ending(_) => true,
    }
}

// Whether the staircase function runs.
pub fn staircase_of(phase: Phase) -> bool
    ensures { result ≡ staircase phase }
{
    match phase {
        Phase::Timed(_) | Phase::Warning(_) => true,
        Phase::Dark | Phase::Lit | Phase::Starting(_, _) | Phase::Ending(_) => false,
    }
}

pub fn deadline_of(phase: Phase) -> Option<u32>
    ensures { result ≡ deadline phase }
{
    match phase {
        Phase::Dark | Phase::Lit => None,
        Phase::Starting(_, d) | Phase::Timed(d) | Phase::Warning(d) | Phase::Ending(d) => Some(d),
    }
}

// The deadline as a number, 0 where there is none.
pub fn due_at(phase: Phase) -> u32
    ensures { result ≡ due phase }
{
    deadline_of(phase).unwrap_or(0)
}

// Light that comes on at t: for a time, or to stay.
// Stays: `timed` is a value that the phase holds (`Starting`), as `lit_at` and `from_dark` take it.
// Stays: `Room` speaks of a moment too, which is a clock, a stamp or a deadline, and C may hand in any Params, so no type holds it.
#[tactic(auto, unfolding(rules::specs::Phases::lit_at))]
pub fn lit_at(p: Params, timed: bool, t: u32) -> Phase
    requires { Room p t }
    ensures { result ≡ lit_at p timed t }
{
    if timed {
        Phase::Timed(later(t, p.timedon))
    } else {
        Phase::Lit
    }
}

// What a phase becomes at its deadline.
#[tactic(auto, unfolding(rules::specs::Phases::at_deadline))]
pub fn at_deadline(p: Params, night: bool, phase: Phase) -> Phase
    requires { Room p (due phase) }
    ensures { result ≡ at_deadline p night phase }
{
    match phase {
        Phase::Lit => Phase::Lit,
        Phase::Starting(timed, d) => lit_at(p, timed || night, d),
        Phase::Timed(d) if p.prewarning != 0 => Phase::Warning(later(d, p.prewarning)),
        Phase::Dark | Phase::Timed(_) | Phase::Warning(_) | Phase::Ending(_) => Phase::Dark,
    }
}

// When a lit phase goes dark by itself, if it does.
pub fn own_end(p: Params, phase: Phase) -> Option<u32>
    requires { (due phase ≤ last_stamp + longest_delay) × (p.prewarning ≤ longest_delay) }
    ensures { result ≡ own_end p phase }
{
    match phase {
        Phase::Dark | Phase::Lit | Phase::Starting(_, _) => None,
        Phase::Timed(d) => Some(later(d, p.prewarning)),
        Phase::Warning(d) | Phase::Ending(d) => Some(d),
    }
}

// "Set on": for a time in a night that neither lock nor force overrules, else to stay.
#[tactic(auto, unfolding(rules::specs::Phases::set_on))]
pub fn set_on(p: Params, night: bool, held: bool, t: u32) -> Phase
    requires { Room p t }
    ensures { result ≡ set_on p night held t }
{
    lit_at(p, night && !held, t)
}
