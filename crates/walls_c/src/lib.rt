// The run over a wall list, exported to C: the archive of crates/walls.
#![tactic(auto)]

ghost use Rattle.std.specs.Prelude.{◌≡◌};
ghost use Rattle.rules.specs.Runs.{answered};
ghost use Rattle.pairs.specs.Walls.{house_wall_run};

// A wall list: one number, and both buffers are filled.
#[unsafe(no_mangle)]
pub extern "C" fn house_wall_run(wall: &[u8], records: &mut [u8], answers: &mut [u8]) -> u64
    ensures { answered result records.new answers.new ≡ house_wall_run wall.now records.old answers.old }
{
    walls::c::house_wall_run(wall, records, answers)
}
