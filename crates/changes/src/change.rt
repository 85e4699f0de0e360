// The public call.
ghost use Rattle.std.specs.Prelude.{◌≡◌};
ghost use Rattle.rules.specs.Runs.{whole};
ghost use Rattle.rules.specs.Changes.{handed_back, check_change, change_call};

use crate::play::{check_lent, play_inputs};
use base::refusal::{Refusal, Refused};
use rules::call::Ran;
use rules::state::State;
use states::sound::is_sound;

// Nothing was played: the state comes back.
fn refused(s: State, found: Refused) -> Ran
    ensures { result ≡ handed_back s found.why found.place }
{
    Ran {
        state: s,
        code: u8::from(found.why),
        place: found.place,
        count: 0,
    }
}

// What is looked at before any input: 9, then 12, then 8.
#[tactic(auto, unfolding(rules::specs::Changes::check_change))]
fn check_change(s: State, inputs: &[u8], records: &[u8], answers: &[u8]) -> Result<(), Refused>
    ensures { result ≡ check_change s inputs.now records.now answers.now }
{
    if !is_sound(s) {
        return Err(Refused {
            why: Refusal::UnsoundState,
            place: 0,
        });
    }
    check_lent(inputs, records, answers)
}

// Any state, any octets and any pair of buffers. At a refused input it stops, and what went before stands in the state and in the buffers;
// what is refused before any input is looked at hands back the state and writes nothing.
// Stays: the two buffers are parameters of their own, as C lends them (`house_change`).
#[tactic(auto, unfolding(rules::specs::Changes::change_call, rules::specs::Changes::change_by))]
pub fn change(s: State, inputs: &[u8], records: &mut [u8], answers: &mut [u8]) -> Ran
    ensures { whole result records.new answers.new ≡ change_call s inputs.now records.old answers.old }
{
    match check_change(s, inputs, records, answers) {
        Ok(()) => play_inputs(s, inputs, records, answers),
        Err(found) => refused(s, found),
    }
}
