// The run over a wall list.
ghost use Rattle.std.specs.Prelude.{◌≡◌};
ghost use Rattle.pairs.specs.Walls.{wall_whole, wall_call};

use pairs::call::WallRan;
use runs::run::{refused, run_checked};
use sensor::state::fresh_with;
use wallfile::{actions_in, check_wall, file_in};

// Every octet string and every pair of buffers: the list's own refusal comes first, then that of a short buffer, and a refused run
// leaves both buffers as they were.
// Stays: the two buffers are parameters of their own, as C lends them (`house_wall_run`).
#[tactic(auto, using(crate::proofs::Runs::run_refused, crate::proofs::Runs::run_passed, crate::proofs::Runs::wall_passed, crate::proofs::Runs::wall_long, pairs::proofs::Refusals::Walls::actions_length, crate::proofs::Runs::wall_fits))]
pub fn run_wall(wall: &[u8], records: &mut [u8], answers: &mut [u8]) -> WallRan
    ensures { wall_whole result records.new answers.new ≡ wall_call wall.now records.old answers.old }
{
    match check_wall(wall) {
        Err(found) => refused(found),
        Ok(()) => {
            let first = fresh_with(actions_in(wall));
            run_checked(file_in(wall), first, records, answers)
        }
    }
}
