// LockDevice: the actuator is locked or unlocked.
ghost use Rattle.std.specs.Prelude.{◌≡◌, List};
ghost use Rattle.rules.specs.declared.parameters.Scene.{Scene};
ghost use Rattle.rules.specs.Orders.{locked, unlocking_output, unlocked, lock_device};
ghost use Rattle.phases.specs.Room.{Room};
ghost use Rattle.lamps.specs.Lamps.{lamp_of, state_of};

use lamps::lamp::{Lamp, by_mode, plain_phase};
use phases::phase::output_of;
use rules::input::Force;
use rules::parameters::Params;
use rules::phase::Phase;

// An unlocked lamp is locked: its output is remembered.
#[tactic(auto, unfolding(rules::specs::Orders::locked))]
fn locks(p: Params, l: Lamp) -> Lamp
    ensures { (k : List Scene) → result ≡ lamp_of (locked (state_of p k l)) }
{
    let out = output_of(l.phase);
    l.with_lock(true, out)
        .with_phase(plain_phase(by_mode(p.locking, out)))
}

// The output that BehaviourAtUnlocking asks for.
#[tactic(auto, unfolding(rules::specs::Orders::unlocking_output))]
fn unlocking_output(p: Params, l: Lamp) -> bool
    ensures { (k : List Scene) → result ≡ unlocking_output (state_of p k l) }
{
    if p.unlocking == 3 {
        l.atlocking
    } else {
        by_mode(p.unlocking, output_of(l.phase))
    }
}

// A locked lamp is unlocked: a standing force decides, otherwise BehaviourAtUnlocking.
#[tactic(auto, unfolding(rules::specs::Orders::unlocked))]
fn unlocks(p: Params, l: Lamp) -> Lamp
    requires { Room p l.clock }
    ensures { (k : List Scene) → result ≡ lamp_of (unlocked (state_of p k l) l.force) }
{
    let r = l.with_lock(false, l.atlocking);
    match l.force {
        Force::Off => r.with_phase(Phase::Dark),
        Force::On => r.with_phase(Phase::Lit),
        Force::Free => r.settled(p, unlocking_output(p, l)),
    }
}

#[tactic(auto, unfolding(rules::specs::Orders::lock_device))]
pub fn lock_order(p: Params, l: Lamp, lock: bool) -> Lamp
    requires { Room p l.clock }
    ensures { (k : List Scene) → result ≡ lamp_of (lock_device (state_of p k l) lock) }
{
    match (lock, l.lock) {
        (true, false) => locks(p, l),
        (false, true) => unlocks(p, l),
        (true, true) | (false, false) => l,
    }
}
