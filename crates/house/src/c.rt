// The call for C, with the types that C can give; `house_c` exports it.
ghost use Rattle.std.specs.Prelude.{◌≡◌};
ghost use Rattle.rules.specs.Runs.{answered, house_run};

use crate::run::run;
use buffers::report::pack;

// A cue file: one number, and both buffers are filled.
// Stays: the report is one number and the buffers lie apart, as the header for C says.
#[tactic(auto, unfolding(rules::specs::Runs::house_run, rules::specs::Runs::answered_by, rules::specs::Runs::packed))]
pub fn house_run(file: &[u8], records: &mut [u8], answers: &mut [u8]) -> u64
    ensures { answered result records.new answers.new ≡ house_run file.now records.old answers.old }
{
    let r = run(file, records, answers);
    pack(r.code, r.place, r.count)
}
