// What an input does, where nothing stops it: to the light, to what outranks the light, and to the scene table; and what a value changes that
// is only noted. The order is chosen by the number of its kind; what it does to the phase is told by a small function for each order
// (phases::order).
#![tactic(auto)]

ghost use Rattle.std.specs.Prelude.{◌≡◌, true, false, List};
ghost use Rattle.rules.specs.declared.parameters.Scene.{Scene};
ghost use Rattle.rules.specs.Orders.{order, noted};
ghost use Rattle.phases.specs.Room.{Room, Roomy};
ghost use Rattle.lamps.specs.Lamps.{lamp_of, state_of, alone};
ghost use Rattle.orders.specs.Lights.{asks, is_light, light_phase};

use inputs::value::{event_in, force_in, is_lesson, kind_of, scene_in, switch_in};
use lamps::lamp::Lamp;
use overrides::force::force_order;
use overrides::link::{bus_event, power_event};
use overrides::lock::lock_order;
use rules::input::Input;
use rules::parameters::{Params, Scene};
use rules::phase::Phase;
use switching::light::{grant, night_order};
use switching::scene::taught;
use switching::wish::{Wish, scene_asks, switch_asks, timed_asks};

// What an order to the light asks of it in this phase. There is no other such kind.
// Stays: document 01 asks for this form (docs/FORMS.md), a match on the number of the kind and then on the phase, for the choice of an order.
#[tactic(auto, unfolding(crate::specs::Lights::asks), using(rules::proofs::Laws::Inputs::kind_range))]
fn asked(k: [Scene; 8], ph: Phase, i: Input) -> Wish
    requires { is_light i ≡ true }
    ensures { result ≡ asks k ph i }
{
    match kind_of(i) {
        1 => switch_asks(switch_in(i)),
        2 => timed_asks(ph, switch_in(i)),
        3 => scene_asks(k, is_lesson(i), scene_in(i)),
        _ => Wish::Nothing,
    }
}

// The phase after an order to the light.
// Stays: that the input is one is asked here and of `asked` alone, where the one caller has matched its kind; a type of such inputs would copy it.
#[tactic(auto, unfolding(crate::specs::Lights::light_phase))]
pub fn light_order(p: Params, k: [Scene; 8], l: Lamp, i: Input) -> Phase
    requires { Roomy p l.clock l.phase × (is_light i ≡ true) }
    ensures { result ≡ light_phase p k l i }
{
    grant(p, l, asked(k, l.phase, i))
}

// The lamp after any other order. There is no other kind left.
#[tactic(auto, unfolding(crate::specs::ByKind::order_by_kind), using(crate::proofs::ByKind::the_order_by_kind, rules::proofs::Laws::Inputs::kind_range))]
pub fn other_order(p: Params, l: Lamp, i: Input) -> Lamp
    requires { Room p l.clock × (is_light i ≡ false) }
    ensures { (k : List Scene) → result ≡ lamp_of (order (state_of p k l) i) }
{
    match kind_of(i) {
        4 => force_order(p, l, force_in(i)),
        5 => lock_order(p, l, switch_in(i)),
        6 => night_order(p, l, switch_in(i)),
        7 => bus_event(p, l, l.link, event_in(i)),
        8 => power_event(p, l, l.link, event_in(i)),
        _ => l,
    }
}

// The lamp after a value that is noted. No other kind sets a value.
#[tactic(auto, unfolding(crate::specs::ByKind::noted_by_kind), using(crate::proofs::ByKind::the_note_by_kind))]
pub fn noted_value(l: Lamp, i: Input) -> Lamp
    ensures { result ≡ lamp_of (noted (alone l) i) }
{
    match kind_of(i) {
        4 => l.with_force(force_in(i)),
        6 => l.with_night(switch_in(i)),
        _ => l,
    }
}

// The scene table after an input.
#[tactic(auto, using(crate::proofs::Lessons::the_table_of_its_scene))]
pub fn table_after(p: Params, k: [Scene; 8], l: Lamp, i: Input) -> [Scene; 8]
    ensures { result ≡ (order (state_of p k l) i).scenes }
{
    taught(p, k, l, is_lesson(i), scene_in(i))
}
