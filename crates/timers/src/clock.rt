// The clock moves: every timer that is due runs at its own moment.
ghost use Rattle.std.specs.Prelude.{◌≡◌, List};
ghost use Rattle.rules.specs.declared.parameters.Scene.{Scene};
ghost use Rattle.rules.specs.Phases.{deadline};
ghost use Rattle.rules.specs.Answers.{due};
ghost use Rattle.rules.specs.Steps.{clock_move};
ghost use Rattle.phases.specs.Room.{Room};
ghost use Rattle.lamps.specs.Lamps.{state_of};
ghost use Rattle.timers.specs.Ticks.{due_by, timer_of, timers_of, clocked};

use lamps::lamp::Lamp;
use phases::phase::{at_deadline, deadline_of, due_at};
use records::notes::{Notes, written};
use rules::parameters::Params;
use rules::phase::Phase;
use rules::record::Record;
use rules::state::State;

// Stays: `timer_of`, `timers_of` and `clocked` are definitions of these three types, and a generic one would call a phase and a state by one name.

// What one timer leaves: a phase, and the record of it.
#[derive(Clone, Copy)]
pub struct Timer {
    pub phase: Phase,
    pub note: Option<Record>,
}

// What timers leave: a phase, and the records that they wrote. All else of a lamp but its clock stays.
#[derive(Clone, Copy)]
pub struct Ticked {
    pub phase: Phase,
    pub notes: Notes,
}

// A state whose clock has moved, and the records that its timers wrote.
#[derive(Clone, Copy)]
pub struct Clocked {
    pub state: State,
    pub notes: Notes,
}

// Whether a timer is due at or before t.
pub fn is_due(ph: Phase, t: u32) -> bool
    ensures { result ≡ due_by (deadline ph) t }
{
    deadline_of(ph).is_some_and(|d| d <= t)
}

// The timer of a lamp in this phase runs, at its own moment.
#[tactic(auto, unfolding(crate::specs::Ticks::timer_of))]
pub fn run_timer(p: Params, l: Lamp, ph: Phase) -> Timer
    requires { Room p (due ph) }
    ensures { result ≡ timer_of p l ph }
{
    let next = at_deadline(p, l.night, ph);
    Timer {
        phase: next,
        note: written(0, l.with_phase(ph), l.at_moment(due_at(ph), next)),
    }
}

// Every timer due at or before t, until none is.
#[tactic(auto, using(crate::proofs::Moves::noted_first, crate::proofs::Moves::noted_on, crate::proofs::Moves::due_has_room, crate::proofs::Moves::due_lowers_the_rank))]
pub fn run_timers(p: Params, l: Lamp, t: u32) -> Ticked
    requires { Room p t }
    ensures { (k : List Scene) → result ≡ timers_of (clock_move (state_of p k l) t) }
{
    let mut ticked = Ticked {
        phase: l.phase,
        notes: Notes::none(),
    };
    while is_due(ticked.phase, t) {
        let timer = run_timer(p, l, ticked.phase);
        ticked.notes = ticked.notes.add(timer.note);
        ticked.phase = timer.phase;
    }
    ticked
}

// The clock of a state moves to t.
pub fn move_clock(s: State, t: u32) -> Clocked
    requires { Room s.params t }
    ensures { result ≡ clocked (clock_move s t) }
{
    let l = Lamp::from(s);
    let ticked = run_timers(s.params, l, t);
    Clocked {
        state: l.at_moment(t, ticked.phase).in_state(s.params, s.scenes),
        notes: ticked.notes,
    }
}
