// A change of a sound state.
ghost use Rattle.std.specs.Prelude.{◌≡◌};
ghost use Rattle.rules.specs.Runs.{whole};
ghost use Rattle.rules.specs.Changes.{groups_fit, check_lent, check_change, change_call};
ghost use Rattle.changes.specs.Reaches.{reach_of};

use base::moment::LAST_STAMP;
use base::refusal::{Refusal, Refused};
use buffers::put::is_roomy;
use cues::check::check_inputs;
use cues::known::Cues;
use layout::INPUT_SIZE;
use player::items::play_items;
use rules::call::Ran;
use rules::state::State;
use sensor::state::own_sensor;

const MOST_GROUPS: usize = 256;

// How far a change is played, and the code and the place that then end it.
// Stays: these are numbers, as `Ran` shows them and the theorems name them (`ChangeCodes`).
#[derive(Clone, Copy)]
pub struct Reach {
    pub count: u32,
    pub code: u8,
    pub place: u16,
}

// None of its groups is cut short, and there are not too many.
#[tactic(auto, unfolding(rules::specs::Changes::groups_fit))]
fn groups_fit(inputs: &[u8]) -> bool
    ensures { result ≡ groups_fit inputs.now }
{
    inputs.len() % INPUT_SIZE == 0 && inputs.len() / INPUT_SIZE <= MOST_GROUPS
}

// All n inputs, or those before the one that is refused.
#[tactic(auto, unfolding(crate::specs::Reaches::reach_of))]
fn reach_of(met: Result<(), Refused>, n: u32) -> Reach
    ensures { result ≡ reach_of met n }
{
    match met {
        Ok(()) => Reach {
            count: n,
            code: 0,
            place: 0,
        },
        Err(found) => Reach {
            count: found.place as u32,
            code: u8::from(found.why),
            place: found.place,
        },
    }
}

// What is lent: 12, then 8.
#[tactic(auto, unfolding(rules::specs::Changes::check_lent, rules::specs::Changes::groups_fit))]
pub fn check_lent(inputs: &[u8], records: &[u8], answers: &[u8]) -> Result<(), Refused>
    ensures { result ≡ check_lent inputs.now records.now answers.now }
{
    if !groups_fit(inputs) {
        return Err(Refused {
            why: Refusal::WrongGroups,
            place: 0,
        });
    }
    let n = (inputs.len() / INPUT_SIZE) as u32;
    if !is_roomy(n, records.len(), answers.len()) {
        return Err(Refused {
            why: Refusal::ShortBuffer,
            place: 0,
        });
    }
    Ok(())
}

// As far as the inputs go, where neither 9 nor 12 nor 8 is given. An input is refused by its octets and by the stamp before it alone, so that the
// first one that is can be found before any is played.
#[tactic(auto, using(crate::proofs::Reaching::looked_few))]
pub fn play_inputs(s: State, inputs: &[u8], records: &mut [u8], answers: &mut [u8]) -> Ran
    requires { check_change s inputs.now records.old answers.old ≡ (Ok tt) }
    ensures { whole result records.new answers.new ≡ change_call s inputs.now records.old answers.old }
{
    let n = (inputs.len() / INPUT_SIZE) as u32;
    let met = check_inputs::<Cues>(inputs, n, s.clock, LAST_STAMP);
    let reach = reach_of(met, n);
    let played = play_items(inputs, reach.count, s, own_sensor(), 0, records, answers);
    Ran {
        state: played.state,
        code: reach.code,
        place: reach.place,
        count: played.count,
    }
}
