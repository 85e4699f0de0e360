// The run over a cue file, with its end state as an image, from which the house may be played on.
ghost use Rattle.std.specs.Prelude.{◌≡◌};
ghost use Rattle.rules.specs.Live.{house_run_to};
ghost use Rattle.desk.specs.Answers.{imaged_run_by, short_number};

use crate::refused;
use base::refusal::{Refusal, Refused};
use buffers::report::pack;
use cues::check::check_file;
use house::run::run;
use images::IMAGE_SIZE;
use images::put::put_image;

// Where the lent state is not as long as an image: the file's own refusal comes first.
fn no_room(file: &[u8]) -> u64
    ensures { result ≡ short_number file.now }
{
    match check_file(file) {
        Err(Refused { why, place }) => refused(why, place),
        Ok(()) => refused(Refusal::ShortBuffer, 0),
    }
}

// A cue file, and the image of the state at its end. Any octets as a file, any lent state and any pair of buffers: a refused run leaves all of
// them as they were.
pub fn house_run_to(file: &[u8], state: &mut [u8], records: &mut [u8], answers: &mut [u8]) -> u64
    ensures { imaged_run_by result state.new records.new answers.new ≡ house_run_to file.now state.old records.old answers.old }
{
    let Some(state) = state.as_mut_array::<IMAGE_SIZE>() else {
        return no_room(file);
    };
    let r = run(file, records, answers);
    let stopped = r.code != 0;
    if stopped {
        return pack(r.code, r.place, r.count);
    }
    put_image(state, r.state);
    pack(r.code, r.place, r.count)
}
