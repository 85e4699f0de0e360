// The run over a checked list, cue file or wall list.
ghost use Rattle.std.specs.Prelude.{◌≡◌};
ghost use Rattle.pairs.specs.Walls.{wall_whole, wall_refusal};
ghost use Rattle.runs.specs.Runs.{ran_in, Fit};

use crate::play::play;
use base::refusal::{Refusal, Refused};
use buffers::put::is_roomy;
use cues::header::CueFile;
use pairs::call::WallRan;
use sensor::state::{Sensor, own_sensor};
use states::fresh::own_state;

// A refusal has its own state and sensor.
// Stays: code and place are numbers, as `WallRan` and `Ran` show them and the theorems name them (`RunCodes`).
pub fn refused(found: Refused) -> WallRan
    ensures { result ≡ wall_refusal found.why found.place }
{
    WallRan {
        state: own_state(),
        sensor: own_sensor(),
        code: u8::from(found.why),
        place: found.place,
        count: 0,
    }
}

// A list with nothing wrong in it, to an actuator with this sensor beside it: a short buffer is refused, and then both are left as they were.
// Stays: the two buffers are parameters of their own, as C lends them (`house_run`, `house_wall_run`).
#[tactic(auto, unfolding(crate::specs::Runs::ran_in, rules::specs::Files::lent_enough, pairs::specs::Walls::wall_refused))]
pub fn run_checked(file: &[u8], first: Sensor, records: &mut [u8], answers: &mut [u8]) -> WallRan
    requires { Fit file.now }
    ensures { wall_whole result records.new answers.new ≡ ran_in file.now first records.old answers.old }
{
    let file = CueFile { octets: file };
    if !is_roomy(file.input_count(), records.len(), answers.len()) {
        return refused(Refused {
            why: Refusal::ShortBuffer,
            place: 0,
        });
    }
    play(file, first, records, answers)
}
