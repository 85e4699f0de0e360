// A whole scene change.
ghost use Rattle.std.specs.Prelude.{true, ◌≡◌};
ghost use Rattle.rules.specs.Changes.{check_lent};
ghost use Rattle.rules.specs.Images.{state_in, is_image};
ghost use Rattle.rules.specs.Live.{house_change};
ghost use Rattle.desk.specs.Answers.{imaged_run_by};

use crate::refused;
use base::refusal::{Refusal, Refused};
use buffers::report::pack;
use changes::play::{check_lent, play_inputs};
use images::put::put_image;
use images::read::state_in;
use images::{IMAGE_SIZE, is_image_of};
use rules::state::State;

// Stays: the state goes beside its image, which would else be read twice.
// As far as the inputs go, to an accepted image, which says this state: it is replaced.
fn play_image(
    s: State,
    state: &mut [u8; IMAGE_SIZE],
    inputs: &[u8],
    records: &mut [u8],
    answers: &mut [u8],
) -> u64
    requires { (is_image state.old ≡ true) × (s ≡ state_in state.old) × (check_lent inputs.now records.old answers.old ≡ Ok tt) }
    ensures { imaged_run_by result state.new records.new answers.new ≡ house_change state.old inputs.now records.old answers.old }
{
    let r = play_inputs(s, inputs, records, answers);
    put_image(state, r.state);
    pack(r.code, r.place, r.count)
}

// Inputs to a state: its image is replaced, and both buffers are filled. Any octets as a state, any as inputs, and any pair of buffers: 9, 12 and 8
// leave all of them as they were.
pub fn house_change(state: &mut [u8], inputs: &[u8], records: &mut [u8], answers: &mut [u8]) -> u64
    ensures { imaged_run_by result state.new records.new answers.new ≡ house_change state.old inputs.now records.old answers.old }
{
    let Some(state) = state.as_mut_array::<IMAGE_SIZE>() else {
        return refused(Refusal::UnsoundState, 0);
    };
    let s = state_in(state);
    if is_image_of(state, s) {
        match check_lent(inputs, records, answers) {
            Err(Refused { why, place }) => refused(why, place),
            Ok(()) => play_image(s, state, inputs, records, answers),
        }
    } else {
        refused(Refusal::UnsoundState, 0)
    }
}
