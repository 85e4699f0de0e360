// The public calls of the pair.
ghost use Rattle.std.specs.Prelude.{◌≡◌, ◌≤◌};
ghost use Rattle.pairs.specs.Pairs.{pair_of};
ghost use Rattle.pairs.specs.Calls.{pair_sound, joint_refused, joint_call, joint_move_refused, joint_move_call};
ghost use Rattle.joined.specs.Joints.{joint_by, move_by};

use crate::hear::hear_notes;
use crate::item::item_at;
use crate::step::{JointStep, Timely, step_pair};
use base::moment::stamp_in_range;
use base::refusal::Refusal;
use octets::group::Group;
use pairs::call::{Joint, JointMove};
use pairs::pair::Pair;
use records::notes::Notes;
use rules::state::State;
use sensor::call::telegram_octets;
use sensor::state::Sensor;
use states::sound::is_sound;
use timers::clock::{Clocked, move_clock};

// Both are sound, and the sensor's clock is not after the actuator's.
#[tactic(auto, unfolding(pairs::specs::Calls::pair_sound))]
fn is_sound_pair(p: Pair) -> bool
    ensures { result ≡ pair_sound p }
{
    is_sound(p.actuator) && sensor::state::is_sound(p.sensor) && p.sensor.clock <= p.actuator.clock
}

// What a step at t came to; refused, it is none.
// Stays: `Single`, `Move`, `Joint` and `JointMove` differ in what they hand out, and `single_of`, `move_of`, `joint_by` and `move_by` are definitions of one each.
#[tactic(auto, unfolding(crate::specs::Joints::joint_by))]
fn result(code: u8, t: u32, d: JointStep) -> Joint
    ensures { result ≡ joint_by code t d }
{
    let Notes { count, records } = d.notes;
    let sent = telegram_octets(t, d.telegram);
    Joint {
        state: d.pair.actuator,
        sensor: d.pair.sensor,
        code,
        place: 0,
        answer: d.answer,
        count,
        records,
        sent,
    }
}

#[tactic(auto, unfolding(pairs::specs::Calls::joint_refused, crate::specs::Joints::joint_by, records::specs::Notes::no_notes, records::specs::Notes::notes))]
fn refused(p: Pair, why: Refusal) -> Joint
    ensures { result ≡ joint_refused p why }
{
    let unplayed = JointStep {
        pair: p,
        answer: 0,
        notes: Notes::none(),
        telegram: None,
    };
    result(u8::from(why), 0, unplayed)
}

// Eight octets: both states, the answer, the records and what was sent, or a refusal that hands back what it was given.
#[tactic(auto, using(base::proofs::Codes::timely_exactly_when, crate::proofs::ByValue::sound_actuator, crate::proofs::ByValue::step_is_done), unfolding(pairs::specs::Calls::joint_call, pairs::specs::Calls::joint_meant))]
pub fn joined_input(s: State, z: Sensor, octets: [u8; 8]) -> Joint
    ensures whole { result ≡ joint_call (pair_of s z) octets }
{
    let pair = Pair {
        actuator: s,
        sensor: z,
    };
    if !is_sound_pair(pair) {
        return refused(pair, Refusal::UnsoundState);
    }
    let group = Group::new(&octets, 0);
    let Some(item) = item_at(group) else {
        return refused(pair, Refusal::BadInput);
    };
    let t = group.stamp();
    if stamp_in_range(s.clock, t) {
        result(0, t, step_pair(Timely { pair, t }, item))
    } else {
        refused(pair, Refusal::BadStamp)
    }
}

// What a move of the actuator came to, which the sensor hears; refused, it is none.
#[tactic(auto, unfolding(crate::specs::Joints::move_by, rules::specs::Calls::blank))]
fn moved(code: u8, z: Sensor, m: Clocked) -> JointMove
    requires { m.notes.count ≤ 2 }
    ensures { result ≡ move_by code z m }
{
    let [first, second, _] = m.notes.records;
    JointMove {
        state: m.state,
        sensor: hear_notes(z, m.notes),
        code,
        place: 0,
        count: m.notes.count,
        records: [first, second],
    }
}

#[tactic(auto, unfolding(pairs::specs::Calls::joint_move_refused, rules::specs::Calls::places, crate::specs::Joints::move_by, pairs::specs::Pairs::hears, records::specs::Notes::no_notes, records::specs::Notes::notes))]
fn unmoved(p: Pair, why: Refusal) -> JointMove
    ensures { result ≡ joint_move_refused p why }
{
    let still = Clocked {
        state: p.actuator,
        notes: Notes::none(),
    };
    moved(u8::from(why), p.sensor, still)
}

// The pair at a later moment and the records of its timers, or a refusal that hands back what it was given.
#[tactic(auto, using(crate::proofs::ByValue::timely_room, crate::proofs::ByValue::sound_actuator, timers::proofs::Moves::moved_few, crate::proofs::ByValue::move_is_done), unfolding(pairs::specs::Calls::joint_move_call))]
pub fn joined_move(s: State, z: Sensor, stamp: u32) -> JointMove
    ensures whole { result ≡ joint_move_call (pair_of s z) stamp }
{
    let pair = Pair {
        actuator: s,
        sensor: z,
    };
    if !is_sound_pair(pair) {
        return unmoved(pair, Refusal::UnsoundState);
    }
    if stamp_in_range(s.clock, stamp) {
        moved(0, z, move_clock(s, stamp))
    } else {
        unmoved(pair, Refusal::BadStamp)
    }
}
