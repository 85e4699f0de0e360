// A checked file: its start record, its items one after the other, and the move to its end time.
ghost use Rattle.std.specs.Prelude.{◌≡◌, ◌≤◌, length};
ghost use Rattle.rules.specs.Forms.{form_in};
ghost use Rattle.rules.specs.Files.{input_count};
ghost use Rattle.rules.specs.Layout.{inputs_at, records_room};
ghost use Rattle.pairs.specs.Walls.{wall_whole, wall_accepted};
ghost use Rattle.runs.specs.Runs.{fresh_in, play_in, Fit};

use buffers::put::{put_notes, put_record};
use cues::header::CueFile;
use lamps::lamp::Lamp;
use pairs::call::WallRan;
use player::items::play_items;
use records::status::record_of;
use rules::state::State;
use sensor::state::Sensor;
use states::fresh::fresh_with;
use timers::clock::move_clock;
use turns::heard::Listener;

// The fresh state of a file's own parameters and scenes.
#[tactic(auto, unfolding(crate::specs::Runs::fresh_in))]
fn fresh_in(file: CueFile) -> State
    requires { inputs_at (form_in file.octets.now) ≤ length file.octets.now }
    ensures { result ≡ fresh_in file.entry.octets.now }
{
    let parameters = file.parameters();
    fresh_with(parameters.params(), parameters.scenes())
}

// The whole run, to an actuator with this sensor beside it: the start record, the items, and the clock's move to the end time; the sensor has heard
// them all.
#[tactic(auto, using(timers::proofs::Moves::moved_few))]
pub(crate) fn play(file: CueFile, first: Sensor, records: &mut [u8], answers: &mut [u8]) -> WallRan
    requires { Fit file.octets.now × (records_room (input_count file.octets.now) ≤ length records.old) × (input_count file.octets.now ≤ length answers.old) }
    ensures { wall_whole result records.new answers.new ≡ wall_accepted (play_in file.entry.octets.now first) records.old answers.old }
{
    let n = file.input_count();
    let end = file.end_time();
    let start = fresh_in(file);
    put_record(records, 0, record_of(0, Lamp::from(start)));
    let played = play_items(file.inputs(), n, start, first, 1, records, answers);
    let last = move_clock(played.state, end);
    put_notes(records, played.count, last.notes);
    let count = played.count + last.notes.count as u32;
    let listener = Listener {
        sensor: played.sensor,
        heard: played.heard,
        records,
        count,
    };
    WallRan {
        state: last.state,
        sensor: listener.listen(),
        code: 0,
        place: 0,
        count,
    }
}
