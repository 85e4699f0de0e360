// The run over a cue file.
ghost use Rattle.std.specs.Prelude.{◌≡◌};
ghost use Rattle.rules.specs.Runs.{whole, run_call};
ghost use Rattle.pairs.specs.Walls.{ran_of};

use cues::check::check_file;
use pairs::call::WallRan;
use rules::call::Ran;
use runs::run::{refused, run_checked};
use sensor::state::own_sensor;

// A cue file has no edges: the sensor beside the actuator sends nothing, and is not handed out.
fn alone(r: WallRan) -> Ran
    ensures { result ≡ ran_of r }
{
    Ran {
        state: r.state,
        code: r.code,
        place: r.place,
        count: r.count,
    }
}

// Every octet string and every pair of buffers: the file's own refusal comes first, then that of a short buffer, and a
// refused run leaves both buffers as they were.
// Stays: the two buffers are parameters of their own, as C lends them (`house_run`).
#[tactic(auto, using(crate::proofs::Runs::run_refused, crate::proofs::Runs::run_passed, crate::proofs::Runs::file_passed, crate::proofs::Runs::file_fits))]
pub fn run(file: &[u8], records: &mut [u8], answers: &mut [u8]) -> Ran
    ensures { whole result records.new answers.new ≡ run_call file.now records.old answers.old }
{
    alone(match check_file(file) {
        Err(found) => refused(found),
        Ok(()) => run_checked(file, own_sensor(), records, answers),
    })
}
