// Orders to the light: what an input asks for, and night.
ghost use Rattle.std.specs.Prelude.{◌≡◌, List};
ghost use Rattle.rules.specs.declared.parameters.Scene.{Scene};
ghost use Rattle.rules.specs.Orders.{held, night_mode};
ghost use Rattle.phases.specs.Room.{Room, Roomy};
ghost use Rattle.lamps.specs.Lamps.{lamp_of, state_of, alone};
ghost use Rattle.switching.specs.Wishes.{granted};

use crate::wish::Wish;
use lamps::lamp::Lamp;
use phases::order::{order_night, order_off, order_on, order_timed_start};
use rules::parameters::Params;
use rules::phase::Phase;

// What becomes of the phase: a wish changes nothing else.
#[tactic(auto, unfolding(crate::specs::Wishes::granted))]
pub fn grant(p: Params, l: Lamp, w: Wish) -> Phase
    requires { Roomy p l.clock l.phase }
    ensures { result ≡ granted p l.night (held (alone l)) l.clock l.phase w }
{
    match w {
        Wish::Nothing => l.phase,
        Wish::On => order_on(p, l.night, l.is_held(), l.clock, l.phase),
        Wish::Off => order_off(p, l.clock, l.phase),
        Wish::TimedStart => order_timed_start(p, l.clock, l.phase),
    }
}

#[tactic(auto, unfolding(rules::specs::Orders::night_mode))]
pub fn night_order(p: Params, l: Lamp, on: bool) -> Lamp
    requires { Room p l.clock }
    ensures { (k : List Scene) → result ≡ lamp_of (night_mode (state_of p k l) on) }
{
    match (on, l.night) {
        (true, true) => l,
        (true, false) => l
            .with_night(true)
            .with_phase(order_night(p, l.clock, l.phase)),
        (false, _) => l.with_night(false),
    }
}
