// An item of a joined list: an input of the actuator, or an edge.
ghost use Rattle.std.specs.Prelude.{◌≡◌};
ghost use Rattle.pairs.specs.Items.{item_at};
ghost use Rattle.joined.specs.Joints.{edge_in};

use inputs::input_at;
use octets::group::Group;
use pairs::item::Item;
use sensor::signal::{Signal, signal_at};

// Where the actuator takes nothing, it may be an edge; a status has no place here.
fn edge_in(s: Option<Signal>) -> Option<Item>
    ensures { result ≡ edge_in s }
{
    match s? {
        Signal::Button1(edge) => Some(Item::Button1(edge)),
        Signal::Button2(edge) => Some(Item::Button2(edge)),
        Signal::Status(_) => None,
    }
}

// What eight octets mean.
#[tactic(auto, unfolding(pairs::specs::Items::item_at))]
pub fn item_at(group: Group) -> Option<Item>
    ensures { result ≡ item_at group.entry.octets.now group.entry.at }
{
    match input_at(group) {
        Some(i) => Some(Item::Plain(i)),
        None => edge_in(signal_at(group)),
    }
}
