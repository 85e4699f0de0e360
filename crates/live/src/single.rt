// A single input to a state.
ghost use Rattle.std.specs.Prelude.{◌≡◌};
ghost use Rattle.rules.specs.Calls.{single_refused, single_call};
ghost use Rattle.live.specs.ByValue.{single_of};

use actuator::step::{Acted, step_input};
use base::moment::stamp_in_range;
use base::refusal::Refusal;
use inputs::input_at;
use octets::group::Group;
use records::notes::Notes;
use rules::call::Single;
use rules::state::State;
use states::sound::is_sound;

// Eight octets: the state, answer and records that the input gives, or a refusal that hands back the state it was given.
#[tactic(auto, using(base::proofs::Codes::timely_exactly_when, crate::proofs::ByValue::acted_is_done), unfolding(rules::specs::Calls::single_call, rules::specs::Calls::single_meant))]
pub fn single_input(s: State, octets: [u8; 8]) -> Single
    ensures whole { result ≡ single_call s octets }
{
    if !is_sound(s) {
        return refused(s, Refusal::UnsoundState);
    }
    let group = Group::new(&octets, 0);
    let Some(input) = input_at(group) else {
        return refused(s, Refusal::BadInput);
    };
    let stamp = group.stamp();
    if stamp_in_range(s.clock, stamp) {
        result(0, step_input(s, input, stamp))
    } else {
        refused(s, Refusal::BadStamp)
    }
}

// What a step came to; refused, it is none.
// Stays: `Single`, `Move`, `Joint` and `JointMove` differ in what they hand out, and `single_of`, `move_of`, `joint_by` and `move_by` are definitions of one each.
#[tactic(auto, unfolding(crate::specs::ByValue::single_of))]
fn result(code: u8, d: Acted) -> Single
    ensures { result ≡ single_of code d }
{
    let Notes { count, records } = d.notes;
    Single {
        state: d.state,
        code,
        place: 0,
        answer: d.answer,
        count,
        records,
    }
}

#[tactic(auto, unfolding(rules::specs::Calls::single_refused, crate::specs::ByValue::single_of, records::specs::Notes::no_notes, records::specs::Notes::notes))]
fn refused(s: State, why: Refusal) -> Single
    ensures { result ≡ single_refused s why }
{
    let unplayed = Acted {
        state: s,
        answer: 0,
        notes: Notes::none(),
    };
    result(u8::from(why), unplayed)
}
