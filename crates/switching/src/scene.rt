// A scene input and the table: only a lesson writes into it.
ghost use Rattle.std.specs.Prelude.{◌≡◌};
ghost use Rattle.rules.specs.Orders.{scene};
ghost use Rattle.lamps.specs.Lamps.{state_of};

use lamps::lamp::Lamp;
use phases::phase::output_of;
use rules::parameters::{Params, Scene};
use scenes::table::learns;

// The table after a scene input: it is written where the input is to learn and learning is enabled.
#[tactic(auto, unfolding(rules::specs::Orders::scene, rules::specs::Orders::learn), using(rules::proofs::Laws::Orders::recall_leaves))]
pub fn taught(p: Params, k: [Scene; 8], l: Lamp, learn: bool, number: u8) -> [Scene; 8]
    ensures { result ≡ (scene (state_of p k l) learn number).scenes }
{
    if learn && p.learning {
        learns(k, number, output_of(l.phase))
    } else {
        k
    }
}
