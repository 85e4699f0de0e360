// A clock move of a state.
ghost use Rattle.std.specs.Prelude.{◌≡◌};
ghost use Rattle.rules.specs.Calls.{move_refused, move_call};
ghost use Rattle.live.specs.ByValue.{move_of};

use base::moment::stamp_in_range;
use base::refusal::Refusal;
use records::notes::Notes;
use rules::call::Move;
use rules::state::State;
use states::sound::is_sound;
use timers::clock::{Clocked, move_clock};

// The state at a later moment and the records of its timers, or a refusal that hands back the state it was given.
#[tactic(auto, using(crate::proofs::ByValue::timely_room, crate::proofs::ByValue::clocked_is_done), unfolding(rules::specs::Calls::move_call))]
pub fn clock_move(s: State, stamp: u32) -> Move
    ensures whole { result ≡ move_call s stamp }
{
    if !is_sound(s) {
        return refused(s, Refusal::UnsoundState);
    }
    if stamp_in_range(s.clock, stamp) {
        result(0, move_clock(s, stamp))
    } else {
        refused(s, Refusal::BadStamp)
    }
}

// What a move came to; refused, it is none.
#[tactic(auto, unfolding(crate::specs::ByValue::move_of, rules::specs::Calls::blank))]
fn result(code: u8, m: Clocked) -> Move
    ensures { result ≡ move_of code m }
{
    let [first, second, _] = m.notes.records;
    Move {
        state: m.state,
        code,
        place: 0,
        count: m.notes.count,
        records: [first, second],
    }
}

#[tactic(auto, unfolding(rules::specs::Calls::move_refused, rules::specs::Calls::places, crate::specs::ByValue::move_of, records::specs::Notes::no_notes, records::specs::Notes::notes))]
fn refused(s: State, why: Refusal) -> Move
    ensures { result ≡ move_refused s why }
{
    let unmoved = Clocked {
        state: s,
        notes: Notes::none(),
    };
    result(u8::from(why), unmoved)
}
