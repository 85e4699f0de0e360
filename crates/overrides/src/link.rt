// The bus and the power fail and return.
ghost use Rattle.std.specs.Prelude.{◌≡◌, List};
ghost use Rattle.rules.specs.declared.parameters.Scene.{Scene};
ghost use Rattle.rules.specs.Orders.{bus_mode, bus, power_fails, power_returns, power};
ghost use Rattle.phases.specs.Room.{Room};
ghost use Rattle.lamps.specs.Lamps.{lamp_of, state_of, alone};

use lamps::lamp::{Lamp, by_mode};
use phases::phase::output_of;
use rules::input::{Event, Force};
use rules::parameters::Params;
use rules::phase::Phase;
use rules::state::Link;

// A bus mode, once the link has changed: lock, force and keep leave the phase and its timer alone.
#[tactic(auto, unfolding(rules::specs::Orders::bus_mode, rules::specs::Orders::held))]
fn by_bus_mode(p: Params, l: Lamp, mode: u8) -> Lamp
    requires { Room p l.clock }
    ensures { (k : List Scene) → result ≡ lamp_of (bus_mode (state_of p k l) mode) }
{
    if l.is_held() || mode == 0 {
        l
    } else {
        l.settled(p, mode == 2)
    }
}

// Stays: link and event stand apart from the lamp, as `bus` is of them.
#[tactic(auto, unfolding(rules::specs::Orders::bus))]
pub fn bus_event(p: Params, l: Lamp, link: Link, event: Event) -> Lamp
    requires { Room p l.clock }
    ensures { (k : List Scene) → result ≡ lamp_of (bus (state_of p k l) link event) }
{
    match (link, event) {
        (Link::Up, Event::Failure) => by_bus_mode(p, l.with_link(Link::BusDown), p.busfailure),
        (Link::BusDown, Event::Return) => by_bus_mode(p, l.with_link(Link::Up), p.busreturn),
        (Link::Up, Event::Return) | (Link::BusDown, Event::Failure) | (Link::PowerDown, _) => l,
    }
}

// The power fails: the output is remembered, and all else falls back but the clock and the output remembered at locking.
#[tactic(auto, unfolding(rules::specs::Orders::power_fails))]
fn power_fails(l: Lamp) -> Lamp
    ensures { result ≡ lamp_of (power_fails (alone l)) }
{
    Lamp {
        night: false,
        lock: false,
        force: Force::Free,
        link: Link::PowerDown,
        atfailure: output_of(l.phase),
        phase: Phase::Dark,
        ..l
    }
}

#[tactic(auto, unfolding(rules::specs::Orders::power_returns))]
fn power_returns(p: Params, l: Lamp) -> Lamp
    requires { Room p l.clock }
    ensures { (k : List Scene) → result ≡ lamp_of (power_returns (state_of p k l)) }
{
    l.with_link(Link::Up)
        .settled(p, by_mode(p.powerreturn, l.atfailure))
}

// Stays: link and event stand apart from the lamp, as `power` is of them.
#[tactic(auto, unfolding(rules::specs::Orders::power, rules::specs::Orders::power_fails))]
pub fn power_event(p: Params, l: Lamp, link: Link, event: Event) -> Lamp
    requires { Room p l.clock }
    ensures { (k : List Scene) → result ≡ lamp_of (power (state_of p k l) link event) }
{
    match (link, event) {
        (Link::Up | Link::BusDown, Event::Failure) => power_fails(l),
        (Link::PowerDown, Event::Return) => power_returns(p, l),
        (Link::Up | Link::BusDown, Event::Return) | (Link::PowerDown, Event::Failure) => l,
    }
}
