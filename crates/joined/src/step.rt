// One item to the pair, at a moment not before the actuator's clock.
ghost use Rattle.std.specs.Prelude.{◌≡◌, true, List, ◌≤◌};
ghost use Rattle.base.specs.Time.{last_stamp};
ghost use Rattle.rules.specs.Soundness.{sound};
ghost use Rattle.rules.specs.declared.record.Record.{Record};
ghost use Rattle.phases.specs.Room.{Roomy};
ghost use Rattle.records.specs.Notes.{notes};
ghost use Rattle.pairs.specs.declared.item.Item.{Item};
ghost use Rattle.pairs.specs.Pairs.{pressed, pair_step};
ghost use Rattle.joined.specs.Joints.{joint_step, switched_from};

use crate::hear::{hear_note, hear_notes};
use actuator::step::{act_input, step_input};
use pairs::item::Item;
use pairs::pair::Pair;
use records::notes::Notes;
use rules::input::Input;
use sensor::react::react;
use sensor::signal::Signal;
use timers::clock::move_clock;

// What an item came to.
#[derive(Clone, Copy)]
pub struct JointStep {
    pub pair: Pair,
    pub answer: u8,
    pub notes: Notes,
    pub telegram: Option<bool>,
}

// A pair whose actuator is sound, and a moment to which its clock may move.
#[derive(Clone, Copy)]
pub struct Timely {
    pub pair: Pair,
    pub t: u32,
    ghost sound: { sound pair.actuator ≡ true },
    ghost risen: { pair.actuator.clock ≤ t },
    ghost timely: { t ≤ last_stamp },
}

// A telegram is played at once, after the timers that wrote these records, and then its own record is heard.
#[tactic(auto, using(crate::proofs::ByValue::switched_step))]
fn switched(p: Pair, timers: Notes, value: bool) -> JointStep
    requires { Roomy p.actuator.params p.actuator.clock p.actuator.phase × (timers.count ≤ 2) }
    ensures { (l : List Record) → timers ≡ notes l → result ≡ joint_step (switched_from p.actuator p.sensor l value) }
{
    let d = act_input(p.actuator, Input::SwitchOnOff(value));
    JointStep {
        pair: Pair {
            actuator: d.state,
            sensor: hear_note(p.sensor, d.note),
        },
        answer: d.answer,
        notes: timers.add(d.note),
        telegram: Some(value),
    }
}

// An edge: the clock moves, what its timers wrote is heard, and then it is decided.
#[tactic(auto, using(timers::proofs::Moves::moved_few, crate::proofs::ByValue::silent_step))]
fn press(at: Timely, signal: Signal) -> JointStep
    ensures { result ≡ joint_step (pressed at.pair signal at.t) }
{
    let m = move_clock(at.pair.actuator, at.t);
    let heard = hear_notes(at.pair.sensor, m.notes);
    let r = react(heard, signal, at.t);
    let pair = Pair {
        actuator: m.state,
        sensor: r.sensor,
    };
    match r.telegram {
        None => JointStep {
            pair,
            answer: 1,
            notes: m.notes,
            telegram: None,
        },
        Some(value) => switched(pair, m.notes, value),
    }
}

// An input of the actuator: what it writes is heard.
#[tactic(auto, using(crate::proofs::ByValue::acted_few, crate::proofs::ByValue::plain_step))]
fn play(at: Timely, i: Input) -> JointStep
    ensures { result ≡ joint_step (pair_step at.pair (Item.Plain i) at.t) }
{
    let d = step_input(at.pair.actuator, i, at.t);
    JointStep {
        pair: Pair {
            actuator: d.state,
            sensor: hear_notes(at.pair.sensor, d.notes),
        },
        answer: d.answer,
        notes: d.notes,
        telegram: None,
    }
}

// Any item.
#[tactic(auto, unfolding(pairs::specs::Pairs::pair_step))]
pub fn step_pair(at: Timely, i: Item) -> JointStep
    ensures { result ≡ joint_step (pair_step at.pair i at.t) }
{
    match i {
        Item::Plain(x) => play(at, x),
        Item::Button1(edge) => press(at, Signal::Button1(edge)),
        Item::Button2(edge) => press(at, Signal::Button2(edge)),
    }
}
