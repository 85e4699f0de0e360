// What each order makes of a phase, at t: one small function for each.
ghost use Rattle.std.specs.Prelude.{◌≡◌};
ghost use Rattle.rules.specs.Orders.{from_dark, on, timed_start, earliest_end, off, night_falls};
ghost use Rattle.phases.specs.Room.{Room, Roomy};

use crate::phase::{lit_at, output_of, own_end, set_on};
use base::moment::later;
use rules::parameters::Params;
use rules::phase::Phase;

// Light from Dark: the light at once, timed or to stay, or the wait for it, timed or steady.
#[tactic(auto, unfolding(rules::specs::Orders::from_dark))]
fn from_dark(p: Params, timed: bool, waittimed: bool, t: u32) -> Phase
    requires { Room p t }
    ensures { result ≡ from_dark p timed waittimed t }
{
    if p.ondelay == 0 {
        lit_at(p, timed, t)
    } else {
        Phase::Starting(waittimed, later(t, p.ondelay))
    }
}

#[tactic(auto, unfolding(rules::specs::Orders::on))]
pub fn order_on(p: Params, night: bool, held: bool, t: u32, phase: Phase) -> Phase
    requires { Room p t }
    ensures { result ≡ on p night held t phase }
{
    match phase {
        Phase::Dark => from_dark(p, night, false, t),
        Phase::Lit => Phase::Lit,
        Phase::Starting(_, d) => Phase::Starting(false, d),
        Phase::Timed(_) | Phase::Warning(_) | Phase::Ending(_) => set_on(p, night, held, t),
    }
}

#[tactic(auto, unfolding(rules::specs::Orders::timed_start))]
pub fn order_timed_start(p: Params, t: u32, phase: Phase) -> Phase
    requires { Room p t }
    ensures { result ≡ timed_start p t phase }
{
    match phase {
        Phase::Dark => from_dark(p, true, true, t),
        Phase::Starting(_, d) => Phase::Starting(true, d),
        Phase::Lit | Phase::Timed(_) | Phase::Warning(_) | Phase::Ending(_) => {
            Phase::Timed(later(t, p.timedon))
        }
    }
}

// The earlier of two moments: that of an Off, and the one at which the light would end by itself, if it does.
#[tactic(auto, unfolding(rules::specs::Orders::earliest_end))]
fn earliest_end(delayed: u32, own: Option<u32>) -> u32
    ensures { result ≡ earliest_end delayed own }
{
    own.map_or(delayed, |end| delayed.min(end))
}

#[tactic(auto, unfolding(rules::specs::Orders::off))]
pub fn order_off(p: Params, t: u32, phase: Phase) -> Phase
    requires { Roomy p t phase }
    ensures { result ≡ off p t phase }
{
    if output_of(phase) && p.offdelay != 0 {
        Phase::Ending(earliest_end(later(t, p.offdelay), own_end(p, phase)))
    } else {
        Phase::Dark
    }
}

// Night falls on a phase.
#[tactic(auto, unfolding(rules::specs::Orders::night_falls))]
pub fn order_night(p: Params, t: u32, phase: Phase) -> Phase
    requires { Room p t }
    ensures { result ≡ night_falls p t phase }
{
    match phase {
        Phase::Lit => Phase::Timed(later(t, p.timedon)),
        Phase::Ending(d) => Phase::Ending(d.min(later(later(t, p.timedon), p.prewarning))),
        Phase::Dark | Phase::Starting(_, _) | Phase::Timed(_) | Phase::Warning(_) => phase,
    }
}
