// A lamp, taken out of a state and put back, and written anew: its force, link and phase are enums.
ghost use Rattle.std.specs.Prelude.{◌≡◌, List};
ghost use Rattle.rules.specs.declared.parameters.Scene.{Scene};
ghost use Rattle.rules.specs.Orders.{with_phase, with_night, with_force, with_link, with_lock, held, settle, plain, by_mode};
ghost use Rattle.rules.specs.Steps.{at_moment};
ghost use Rattle.phases.specs.Room.{Room};
ghost use Rattle.lamps.specs.Lamps.{lamp_of, state_of, alone};

use phases::phase::set_on;
use rules::input::Force;
use rules::parameters::{Params, Scene};
use rules::phase::Phase;
use rules::state::{Link, State};

// All of a state but the parameters, which never change, and the scene table, which changes by learning alone.
// Stays: these two are handed on beside a lamp, since a whole state by value was copied at each call (bench/README.md).
#[derive(Clone, Copy)]
pub struct Lamp {
    pub clock: u32,
    pub night: bool,
    pub lock: bool,
    pub force: Force,
    pub link: Link,
    pub atlocking: bool,
    pub atfailure: bool,
    pub phase: Phase,
}

impl From<State> for Lamp {
    ghost from_gives = { λ s l. l ≡ lamp_of s };

    fn from(s: State) -> Lamp {
        Lamp {
            clock: s.clock,
            night: s.night,
            lock: s.lock,
            force: s.force,
            link: s.link,
            atlocking: s.atlocking,
            atfailure: s.atfailure,
            phase: s.phase,
        }
    }
}

impl Lamp {
    // The state that a lamp is part of.
    pub fn in_state(self, p: Params, k: [Scene; 8]) -> State
        ensures { result ≡ state_of p k self }
    {
        State {
            params: p,
            scenes: k,
            clock: self.clock,
            night: self.night,
            lock: self.lock,
            force: self.force,
            link: self.link,
            atlocking: self.atlocking,
            atfailure: self.atfailure,
            phase: self.phase,
        }
    }

    pub fn with_phase(self, phase: Phase) -> Lamp
        ensures { result ≡ lamp_of (with_phase (alone self) phase) }
    {
        Lamp { phase, ..self }
    }

    pub fn with_force(self, force: Force) -> Lamp
        ensures { result ≡ lamp_of (with_force (alone self) force) }
    {
        Lamp { force, ..self }
    }

    pub fn with_link(self, link: Link) -> Lamp
        ensures { result ≡ lamp_of (with_link (alone self) link) }
    {
        Lamp { link, ..self }
    }

    pub fn with_night(self, night: bool) -> Lamp
        ensures { result ≡ lamp_of (with_night (alone self) night) }
    {
        Lamp { night, ..self }
    }

    pub fn with_lock(self, lock: bool, remembered: bool) -> Lamp
        ensures { result ≡ lamp_of (with_lock (alone self) lock remembered) }
    {
        Lamp {
            lock,
            atlocking: remembered,
            ..self
        }
    }

    // The lamp at another moment, in this phase.
    pub fn at_moment(self, t: u32, phase: Phase) -> Lamp
        ensures { result ≡ lamp_of (at_moment (alone self) t phase) }
    {
        Lamp {
            clock: t,
            phase,
            ..self
        }
    }

    // Whether lock or force stands.
    #[tactic(auto, unfolding(rules::specs::Orders::held))]
    pub fn is_held(self) -> bool
        ensures { result ≡ held (alone self) }
    {
        self.lock || self.force != Force::Free
    }

    // "Set on" or "set off", once the order's own flags are changed.
    #[tactic(auto, unfolding(rules::specs::Orders::settle, rules::specs::Orders::held))]
    pub fn settled(self, p: Params, on: bool) -> Lamp
        requires { Room p self.clock }
        ensures { (k : List Scene) → result ≡ lamp_of (settle (state_of p k self) on) }
    {
        if on {
            self.with_phase(set_on(p, self.night, self.is_held(), self.clock))
        } else {
            self.with_phase(Phase::Dark)
        }
    }
}

// Dark or Lit, by an output.
pub fn plain_phase(on: bool) -> Phase
    ensures { result ≡ plain on }
{
    if on { Phase::Lit } else { Phase::Dark }
}

// A mode's output: 1 off, 2 on, 0 the one that is kept.
// Stays: a mode is the number of the file (`Params`), as `by_mode` is of any.
#[tactic(auto, unfolding(rules::specs::Orders::by_mode))]
pub fn by_mode(mode: u8, kept: bool) -> bool
    ensures { result ≡ by_mode mode kept }
{
    match mode {
        1 => false,
        2 => true,
        _ => kept,
    }
}
