// An item's turn, once the clock has moved to its stamp.
ghost use Rattle.std.specs.Prelude.{◌≡◌};
ghost use Rattle.octets.specs.Groups.{kind_at, value_at};
ghost use Rattle.sensor.specs.Reactions.{react};
ghost use Rattle.pairs.specs.declared.item.Item.{Item};
ghost use Rattle.pairs.specs.Items.{item_at};
ghost use Rattle.turns.specs.Turns.{edge_turn, turn_of};

use crate::heard::Listener;
use inputs::LAST_KIND;
use octets::group::Group;
use sensor::react::react;
use sensor::signal::{Signal, signal_at};
use sensor::state::Sensor;

// What an item may ask of the actuator: an input, by its kind and value.
// Stays: `turn_of` and `Asks` speak of the two as they stand in the file, and an input is built only where the barrier lets it through.
#[derive(Clone, Copy)]
pub struct Order {
    pub kind: u8,
    pub value: u8,
}

// What its turn comes to: what it asks, and the sensor, which has heard the first so many records.
#[derive(Clone, Copy)]
pub struct Turn {
    pub asked: Option<Order>,
    pub sensor: Sensor,
    pub heard: u32,
}

// An edge to a sensor that has heard all records so far. What it sends is a SwitchOnOff.
#[tactic(auto, using(base::proofs::Tests::stored), unfolding(crate::specs::Turns::edge_turn))]
fn press(signal: Signal, t: u32, z: Sensor, count: u32) -> Turn
    ensures { result ≡ edge_turn (react z signal t) count }
{
    let r = react(z, signal, t);
    Turn {
        asked: r.telegram.map(|on| Order {
            kind: 1,
            value: on as u8,
        }),
        sensor: r.sensor,
        heard: count,
    }
}

// The item that eight octets are, if they are one, at t. An input asks for itself, and the sensor takes no part; at an edge it listens first.
#[tactic(auto, using(crate::proofs::Turning::an_input_asks_for_itself, crate::proofs::Turning::an_edge_is_decided, crate::proofs::Turning::no_item_asks_for_nothing))]
pub fn turn_at(group: Group, t: u32, listener: Listener) -> Turn
    ensures { (i : Item) → item_at group.entry.octets.now group.entry.at ≡ Some i → result ≡ turn_of i (kind_at group.entry.octets.now group.entry.at) (value_at group.entry.octets.now group.entry.at) t listener.entry.records.now listener.entry.count listener.entry.sensor listener.entry.heard }
{
    if group.kind() <= LAST_KIND {
        return Turn {
            asked: Some(Order {
                kind: group.kind(),
                value: group.value(),
            }),
            sensor: listener.sensor,
            heard: listener.heard,
        };
    }
    match signal_at(group) {
        Some(signal) => press(signal, t, listener.listen(), listener.count),
        None => Turn {
            asked: None,
            sensor: listener.sensor,
            heard: listener.heard,
        },
    }
}
