// The state that a run starts from.
ghost use Rattle.std.specs.Prelude.{◌≡◌};
ghost use Rattle.rules.specs.Steps.{fresh};
ghost use Rattle.rules.specs.Calls.{own_state};

use rules::input::Force;
use rules::parameters::{Params, Scene};
use rules::phase::Phase;
use rules::state::{Link, State};

// The fresh state of these parameters and scenes.
#[tactic(auto, unfolding(rules::specs::Steps::fresh))]
pub fn fresh_with(p: Params, k: [Scene; 8]) -> State
    ensures { result ≡ fresh p k }
{
    State {
        params: p,
        scenes: k,
        clock: 0,
        night: false,
        lock: false,
        force: Force::Free,
        link: Link::Up,
        atlocking: false,
        atfailure: false,
        phase: Phase::Dark,
    }
}

// The state of a refusal where none was handed in: version 1, TimedOn 1 second, all else 0, no scenes.
#[tactic(auto, unfolding(rules::specs::Calls::own_state, rules::specs::Calls::least_params, rules::specs::Calls::no_scenes, rules::specs::Calls::unused))]
pub fn own_state() -> State
    ensures { result ≡ own_state }
{
    let p = Params {
        version: 1,
        ondelay: 0,
        offdelay: 0,
        timedon: 10,
        prewarning: 0,
        locking: 0,
        unlocking: 0,
        busfailure: 0,
        busreturn: 0,
        powerreturn: 0,
        learning: false,
    };
    let unused = Scene {
        number: 255,
        value: false,
        taught: false,
    };
    fresh_with(p, [unused; 8])
}
