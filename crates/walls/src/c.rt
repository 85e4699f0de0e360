// The call for C, with the types that C can give; `walls_c` exports it.
ghost use Rattle.std.specs.Prelude.{◌≡◌};
ghost use Rattle.rules.specs.Runs.{answered};
ghost use Rattle.pairs.specs.Walls.{house_wall_run};

use crate::run::run_wall;
use buffers::report::pack;

// A wall list: one number, and both buffers are filled.
// Stays: the report is one number and the buffers lie apart, as the header for C says.
#[tactic(auto, unfolding(pairs::specs::Walls::house_wall_run, rules::specs::Runs::answered_by, rules::specs::Runs::packed))]
pub fn house_wall_run(wall: &[u8], records: &mut [u8], answers: &mut [u8]) -> u64
    ensures { answered result records.new answers.new ≡ house_wall_run wall.now records.old answers.old }
{
    let r = run_wall(wall, records, answers);
    pack(r.code, r.place, r.count)
}
