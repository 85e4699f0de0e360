// A wall list, a cue file in which edges of push buttons stand among the inputs and the actions of these edges after it: its parts, and
// what it is refused for.
#![tactic(auto)]

ghost use Rattle.std.specs.Prelude.{◌≡◌, ◌≤◌, length};
ghost use Rattle.rules.specs.Readings.{verdict};
ghost use Rattle.pairs.specs.Walls.{actions_size, file_in, actions_in, read_wall};
ghost use Rattle.wallfile.specs.Checks.{check_parts};

use base::refusal::{Refusal, Refused};
use cues::check::{check_inputs_in, check_start};
use cues::known::CuesAndEdges;
use layout::LEAST_FILE;
use sensor::action::check_actions;

const ACTIONS_SIZE: usize = 4;

// The cue file.
#[tactic(auto, unfolding(pairs::specs::Walls::file_in))]
pub fn file_in(wall: &[u8]) -> &[u8]
    requires { actions_size ≤ length wall.now }
    ensures { result.now ≡ file_in wall.now }
{
    &wall[..wall.len() - ACTIONS_SIZE]
}

// The actions after it.
#[tactic(auto, unfolding(pairs::specs::Walls::actions_in))]
pub fn actions_in(wall: &[u8]) -> &[u8]
    requires { actions_size ≤ length wall.now }
    ensures { result.now ≡ actions_in wall.now }
{
    &wall[wall.len() - ACTIONS_SIZE..]
}

// The rows of the cue file up to its parameters, then the actions, then the inputs, edges among them.
#[tactic(auto, using(cues::proofs::Passed::passed_start_is_good, crate::proofs::Items::parts_checked))]
fn check_parts(file: &[u8], actions: &[u8]) -> Result<(), Refused>
    ensures { result ≡ check_parts file.now actions.now }
{
    check_start(file)?;
    check_actions(actions)?;
    check_inputs_in::<CuesAndEdges>(file)
}

// A whole wall list: accepted, or refused for the first row of the table that holds.
#[tactic(auto, using(crate::proofs::Items::long_wall, crate::proofs::Items::short_wall))]
pub fn check_wall(wall: &[u8]) -> Result<(), Refused>
    ensures { result ≡ verdict (read_wall wall.now) }
{
    if wall.len() < LEAST_FILE + ACTIONS_SIZE {
        return Err(Refused {
            why: Refusal::WrongLength,
            place: 0,
        });
    }
    check_parts(file_in(wall), actions_in(wall))
}
