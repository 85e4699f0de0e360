// The two status octets and the record that shows them.
ghost use Rattle.std.specs.Prelude.{◌≡◌, ◌≤◌};
ghost use Rattle.lamps.specs.Lamps.{alone};
ghost use Rattle.rules.specs.Status.{value, bit, attributes, record_of, same_status};

use lamps::lamp::Lamp;
use phases::phase::{output_of, staircase_of};
use rules::input::Force;
use rules::record::Record;
use rules::state::Link;

#[tactic(auto, unfolding(rules::specs::Status::value))]
pub fn value_of(l: Lamp) -> u8
    ensures { result ≡ value (alone l) }
{
    if output_of(l.phase) { 255 } else { 0 }
}

pub fn bit_of(set: bool, weight: u8) -> u8
    ensures { (result ≡ bit set weight) × (result ≤ weight) }
{
    if set { weight } else { 0 }
}

#[tactic(auto, unfolding(rules::specs::Status::attributes))]
pub fn attributes_of(l: Lamp) -> u8
    ensures { result ≡ attributes (alone l) }
{
    bit_of(l.link != Link::PowerDown, 1)
        + bit_of(l.lock, 2)
        + bit_of(l.force != Force::Free, 4)
        + bit_of(l.night, 8)
        + bit_of(staircase_of(l.phase), 16)
}

#[tactic(auto, unfolding(rules::specs::Status::record_of))]
pub fn record_of(cause: u8, l: Lamp) -> Record
    ensures { result ≡ record_of cause (alone l) }
{
    Record {
        stamp: l.clock,
        value: value_of(l),
        attributes: attributes_of(l),
        cause,
    }
}

#[tactic(auto, unfolding(rules::specs::Status::same_status))]
pub fn same_status(before: Lamp, after: Lamp) -> bool
    ensures { result ≡ same_status (alone before) (alone after) }
{
    value_of(before) == value_of(after) && attributes_of(before) == attributes_of(after)
}
