// The live calls, exported to C: the archive of crates/desk.
#![tactic(auto)]

ghost use Rattle.std.specs.Prelude.{◌≡◌};
ghost use Rattle.rules.specs.Live.{house_change, house_fresh, house_move, house_run_to};
ghost use Rattle.desk.specs.Answers.{imaged_by, imaged_move_by, imaged_run_by};

// The image of the fresh state of parameters alone. Any octets as parameters, and any lent state: what is wrong with the parameters comes first.
#[unsafe(no_mangle)]
pub extern "C" fn house_fresh(parameters: &[u8], state: &mut [u8]) -> u64
    ensures { imaged_by result state.new ≡ house_fresh parameters.now state.old }
{
    desk::fresh::house_fresh(parameters, state)
}

// Inputs to a state: its image is replaced, and both buffers are filled. Any octets as a state, any as inputs, and any pair of buffers: 9, 12 and 8
// leave all of them as they were.
#[unsafe(no_mangle)]
pub extern "C" fn house_change(
    state: &mut [u8],
    inputs: &[u8],
    records: &mut [u8],
    answers: &mut [u8],
) -> u64
    ensures { imaged_run_by result state.new records.new answers.new ≡ house_change state.old inputs.now records.old answers.old }
{
    desk::change::house_change(state, inputs, records, answers)
}

// The clock of a state moves: its image is replaced, and the records are filled. Any octets as a state, any stamp, and any room for records.
#[unsafe(no_mangle)]
pub extern "C" fn house_move(state: &mut [u8], stamp: u32, records: &mut [u8]) -> u64
    ensures { imaged_move_by result state.new records.new ≡ house_move state.old stamp records.old }
{
    desk::clock::house_move(state, stamp, records)
}

// A cue file, and the image of the state at its end. Any octets as a file, any lent state and any pair of buffers: a refused run leaves all of
// them as they were.
#[unsafe(no_mangle)]
pub extern "C" fn house_run_to(
    file: &[u8],
    state: &mut [u8],
    records: &mut [u8],
    answers: &mut [u8],
) -> u64
    ensures { imaged_run_by result state.new records.new answers.new ≡ house_run_to file.now state.old records.old answers.old }
{
    desk::run::house_run_to(file, state, records, answers)
}
