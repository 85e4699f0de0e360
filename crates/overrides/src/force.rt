// SwitchOnOffForced: a force stands, or a standing one is released.
ghost use Rattle.std.specs.Prelude.{◌≡◌, List};
ghost use Rattle.rules.specs.declared.parameters.Scene.{Scene};
ghost use Rattle.rules.specs.Orders.{forced};
ghost use Rattle.phases.specs.Room.{Room};
ghost use Rattle.lamps.specs.Lamps.{lamp_of, state_of};

use lamps::lamp::Lamp;
use phases::phase::output_of;
use rules::input::Force;
use rules::parameters::Params;
use rules::phase::Phase;

#[tactic(auto, unfolding(rules::specs::Orders::forced))]
pub fn force_order(p: Params, l: Lamp, f: Force) -> Lamp
    requires { Room p l.clock }
    ensures { (k : List Scene) → result ≡ lamp_of (forced (state_of p k l) f) }
{
    let forced = l.with_force(f);
    match f {
        Force::Off => forced.with_phase(Phase::Dark),
        Force::On => forced.with_phase(Phase::Lit),
        Force::Free if l.force != Force::Free => forced.settled(p, output_of(l.phase)),
        Force::Free => l,
    }
}
