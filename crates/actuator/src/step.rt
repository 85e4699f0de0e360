// One input: the clock moves to its stamp, then it acts, is noted, or is dropped for good.
ghost use Rattle.std.specs.Prelude.{◌≡◌, Bool, true, false, List, ◌≤◌};
ghost use Rattle.base.specs.Time.{last_stamp};
ghost use Rattle.rules.specs.declared.parameters.Scene.{Scene};
ghost use Rattle.rules.specs.Answers.{stopped_number, answer, same_scenes};
ghost use Rattle.rules.specs.Orders.{order};
ghost use Rattle.rules.specs.Barriers.{barrier_to, barrier};
ghost use Rattle.rules.specs.Steps.{act, step};
ghost use Rattle.rules.specs.Lists.{still};
ghost use Rattle.rules.specs.Soundness.{sound};
ghost use Rattle.phases.specs.Room.{Room, Roomy};
ghost use Rattle.lamps.specs.Lamps.{lamp_of, state_of};
ghost use Rattle.orders.specs.Lights.{is_light};
ghost use Rattle.actuator.specs.Acts.{fate, meeting, after, done, done_by, acting, acted};

use barriers::barrier::barrier_to;
use inputs::value::{is_lesson, kind_of};
use lamps::lamp::Lamp;
use orders::{light_order, noted_value, other_order, table_after};
use records::notes::{Notes, written};
use rules::barrier::{Barrier, Why};
use rules::input::Input;
use rules::parameters::{Params, Scene};
use rules::record::Record;
use rules::state::State;
use scenes::same::same_scenes;
use states::same::{same_lamp, same_phase};
use timers::clock::move_clock;

// Stays: `done`, `acting` and `acted` are definitions of these three types, and a generic one would call a lamp and a state by one name.

// What an input that counts does, but for the scene table.
#[derive(Clone, Copy)]
pub struct Done {
    pub lamp: Lamp,
    pub answer: u8,
    pub note: Option<Record>,
}

// What an input came to while the clock stood.
#[derive(Clone, Copy)]
pub struct Acting {
    pub state: State,
    pub answer: u8,
    pub note: Option<Record>,
}

// What an input came to, by value.
#[derive(Clone, Copy)]
pub struct Acted {
    pub state: State,
    pub answer: u8,
    pub notes: Notes,
}

// The answer octets of an input that counts: taken, it changes something; it changes nothing; noted, it changes something.
const CHANGED: u8 = 0;

const UNCHANGED: u8 = 1;

const NOTED: u8 = 6;

// The answer octet of an input that is stopped.
// Stays: a `From` would have to stand beside `Why`, in `rules`, which holds no code.
fn stopped_number(why: Why) -> u8
    ensures { result ≡ stopped_number why }
{
    match why {
        Why::NoPower => 5,
        Why::NoBus => 4,
        Why::Locked => 3,
        Why::Forced => 2,
    }
}

// Of an input that changes something.
#[tactic(auto, unfolding(crate::specs::Acts::meeting))]
fn changed_number(noted: bool) -> u8
    ensures { result ≡ answer (meeting noted) false }
{
    if noted { NOTED } else { CHANGED }
}

// Of an order that is taken.
fn taken_number(same: bool) -> u8
    ensures { result ≡ answer Barrier.Open same }
{
    if same { UNCHANGED } else { CHANGED }
}

// What becomes of an input of a kind, once the clock has moved: the one place where an input meets its barrier.
#[tactic(auto, unfolding(crate::specs::Acts::fate))]
pub fn fate_of(l: Lamp, kind: u8) -> Result<bool, u8>
    requires { (1 ≤ kind) × (kind ≤ 8) }
    ensures { result ≡ fate (barrier_to kind l.link l.lock l.force) }
{
    match barrier_to(l, kind) {
        Barrier::Open => Ok(false),
        Barrier::Notes => Ok(true),
        Barrier::Stopped(why) => Err(stopped_number(why)),
    }
}

// Whether the scene table after an order is the one before it. Only a lesson can change it, so no other input pays for it.
#[tactic(auto, using(orders::proofs::Lessons::only_a_lesson_teaches, rules::proofs::Laws::Answers::scenes_same))]
fn same_table(p: Params, k: [Scene; 8], l: Lamp, i: Input) -> bool
    ensures { result ≡ same_scenes k (order (state_of p k l) i).scenes }
{
    !is_lesson(i) || same_scenes(k, table_after(p, k, l, i))
}

// An order to the light: a phase that stays shows nothing new.
#[tactic(auto, using(crate::proofs::Taken::lamp_stays, crate::proofs::Taken::lamp_changes, crate::proofs::Taken::light_lamp, crate::proofs::Taken::light_stays, crate::proofs::Taken::light_changes))]
fn take_light(p: Params, k: [Scene; 8], l: Lamp, i: Input) -> Done
    requires { Roomy p l.clock l.phase × (is_light i ≡ true) }
    ensures { result ≡ done_by Barrier.Open (state_of p k l) i (order (state_of p k l) i) }
{
    let next = light_order(p, k, l, i);
    if same_phase(l.phase, next) {
        Done {
            lamp: l,
            answer: taken_number(same_table(p, k, l, i)),
            note: None,
        }
    } else {
        let after = l.with_phase(next);
        Done {
            lamp: after,
            answer: CHANGED,
            note: written(kind_of(i), l, after),
        }
    }
}

// Stays: `noted` is what the input met, as `meeting` takes it; two functions would write its answer twice.
// The lamp after any other input: after its order, or with its value, which is only noted.
#[tactic(auto, unfolding(crate::specs::Acts::meeting, crate::specs::Acts::after), using(crate::proofs::Taken::noted_alone))]
fn other_lamp(p: Params, l: Lamp, i: Input, noted: bool) -> Lamp
    requires { Room p l.clock × (is_light i ≡ false) }
    ensures { (k : List Scene) → result ≡ lamp_of (after (meeting noted) (state_of p k l) i) }
{
    if noted {
        noted_value(l, i)
    } else {
        other_order(p, l, i)
    }
}

// Any other input, taken or noted: a lamp that stays shows nothing new.
#[tactic(auto, using(crate::proofs::Taken::other_stays, crate::proofs::Taken::other_changes))]
fn take_other(p: Params, l: Lamp, i: Input, noted: bool) -> Done
    requires { Room p l.clock × (is_light i ≡ false) }
    ensures { (k : List Scene) → result ≡ done_by (meeting noted) (state_of p k l) i (after (meeting noted) (state_of p k l) i) }
{
    let after = other_lamp(p, l, i, noted);
    if same_lamp(l, after) {
        Done {
            lamp: l,
            answer: UNCHANGED,
            note: None,
        }
    } else {
        Done {
            lamp: after,
            answer: changed_number(noted),
            note: written(kind_of(i), l, after),
        }
    }
}

// An input at the moved clock that counts: kinds 1 to 3 are orders to the light, and none of them is noted.
// Stays: document 01 asks for this form (docs/FORMS.md), a match on the number of the kind with a range.
#[tactic(auto, using(crate::proofs::Taken::light_is_done, rules::proofs::Laws::Inputs::kind_range))]
pub fn take(p: Params, k: [Scene; 8], l: Lamp, i: Input, noted: bool) -> Done
    requires { Roomy p l.clock l.phase × (fate (barrier (state_of p k l) i) ≡ Ok noted) }
    ensures { result ≡ done (act (still (state_of p k l)) i) }
{
    match kind_of(i) {
        1..=3 => take_light(p, k, l, i),
        _ => take_other(p, l, i, noted),
    }
}

// The scene table after an input at the moved clock that counts.
#[tactic(auto, using(orders::proofs::Lessons::only_a_lesson_teaches, crate::proofs::Taken::counts_teaches))]
pub fn scenes_after(p: Params, k: [Scene; 8], l: Lamp, i: Input) -> [Scene; 8]
    requires { (noted : Bool) × (fate (barrier (state_of p k l) i) ≡ Ok noted) }
    ensures { result ≡ (act (still (state_of p k l)) i).state.scenes }
{
    if is_lesson(i) {
        table_after(p, k, l, i)
    } else {
        k
    }
}

// An input to a whole state while the clock stands: a dropped one leaves the state as it is.
#[tactic(auto, unfolding(rules::specs::Barriers::barrier, crate::specs::Acts::dropped_by), using(rules::proofs::Laws::Inputs::kind_range, crate::proofs::Taken::dropped_leaves, crate::proofs::Taken::acting_by_parts))]
pub fn act_input(s: State, i: Input) -> Acting
    requires { Roomy s.params s.clock s.phase }
    ensures { result ≡ acting (act (still s) i) }
{
    let l = Lamp::from(s);
    match fate_of(l, kind_of(i)) {
        Err(answer) => Acting {
            state: s,
            answer,
            note: None,
        },
        Ok(noted) => {
            let d = take(s.params, s.scenes, l, i, noted);
            let scenes = scenes_after(s.params, s.scenes, l, i);
            Acting {
                state: d.lamp.in_state(s.params, scenes),
                answer: d.answer,
                note: d.note,
            }
        }
    }
}

// An input at t: the clock moves, then it acts.
#[tactic(auto, unfolding(timers::specs::Ticks::clocked, records::specs::Notes::notes), using(rules::proofs::Laws::Records::a_move_writes_at_most_two, crate::proofs::Taken::step_is_the_move_and_the_act))]
pub fn step_input(s: State, i: Input, t: u32) -> Acted
    requires { (sound s ≡ true) × (s.clock ≤ t) × (t ≤ last_stamp) }
    ensures { result ≡ acted (step s i t) }
{
    let m = move_clock(s, t);
    let d = act_input(m.state, i);
    Acted {
        state: d.state,
        answer: d.answer,
        notes: m.notes.add(d.note),
    }
}
