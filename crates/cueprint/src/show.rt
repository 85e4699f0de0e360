// What is played: a cue file, or a wall list, which is one with the actions of a sensor behind it.
ghost use Rattle.std.specs.Prelude.{◌≡◌, ◌≤◌, length, Ok};
ghost use Rattle.rules.specs.Files.{input_count, check_start};
ghost use Rattle.rules.specs.Forms.{form_in};
ghost use Rattle.rules.specs.Layout.{most_inputs, file_size};

use base::refusal::Refused;
use cues::check::check_file;
use cues::header::CueFile;
use sensor::call::fresh_sensor;
use sensor::state::{Sensor, own_sensor};
use wallfile::{actions_in, check_wall, file_in};

// A cue file with nothing wrong before its inputs, as long as its header says, and the sensor beside its actuator.
#[derive(Clone, Copy)]
pub(crate) struct Show<'a> {
    pub file: CueFile<'a>,
    pub sensor: Sensor,
    ghost good: { check_start file.octets.now ≡ Ok tt },
    ghost few: { input_count file.octets.now ≤ most_inputs },
    ghost whole: { length file.octets.now ≡ file_size (form_in file.octets.now) (input_count file.octets.now) },
}

// A cue file, with no button beside it.
#[tactic(auto, using(crate::proofs::Passed::passed_file))]
pub(crate) fn cue_file(list: &[u8]) -> Result<Show<'_>, Refused> {
    check_file(list)?;
    Ok(Show {
        file: CueFile { octets: list },
        sensor: own_sensor(),
    })
}

// A wall list.
#[tactic(auto, using(crate::proofs::Passed::passed_wall))]
pub(crate) fn wall_list(list: &[u8]) -> Result<Show<'_>, Refused> {
    check_wall(list)?;
    Ok(Show {
        file: CueFile {
            octets: file_in(list),
        },
        sensor: fresh_sensor(actions_in(list)).sensor,
    })
}
