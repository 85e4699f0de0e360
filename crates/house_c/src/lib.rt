// The run over a cue file, exported to C: the archive of crates/house.
#![tactic(auto)]

ghost use Rattle.std.specs.Prelude.{◌≡◌};
ghost use Rattle.rules.specs.Runs.{answered, house_run};

// A cue file: one number, and both buffers are filled.
#[unsafe(no_mangle)]
pub extern "C" fn house_run(file: &[u8], records: &mut [u8], answers: &mut [u8]) -> u64
    ensures { answered result records.new answers.new ≡ house_run file.now records.old answers.old }
{
    house::c::house_run(file, records, answers)
}
