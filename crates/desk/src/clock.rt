// A clock move.
ghost use Rattle.std.specs.Prelude.{true, ◌≡◌};
ghost use Rattle.rules.specs.Images.{state_in, is_image};
ghost use Rattle.rules.specs.Live.{house_move};
ghost use Rattle.desk.specs.Answers.{imaged_move_by};

use crate::refused;
use base::moment::stamp_in_range;
use base::refusal::Refusal;
use buffers::put::put_notes;
use buffers::report::pack;
use images::put::put_image;
use images::read::state_in;
use images::{IMAGE_SIZE, is_image_of};
use rules::state::State;
use timers::clock::move_clock;

const MOVE_ROOM: usize = 16;

// Stays: the state goes beside its image, which would else be read twice.
// Of an accepted image, which says this state: 7, then 8, then the timers due by then run.
fn move_state(s: State, state: &mut [u8; IMAGE_SIZE], stamp: u32, records: &mut [u8]) -> u64
    requires { (is_image state.old ≡ true) × (s ≡ state_in state.old) }
    ensures { imaged_move_by result state.new records.new ≡ house_move state.old stamp records.old }
{
    if stamp_in_range(s.clock, stamp) {
        if records.len() < MOVE_ROOM {
            return refused(Refusal::ShortBuffer, 0);
        }
        let m = move_clock(s, stamp);
        put_notes(records, 0, m.notes);
        put_image(state, m.state);
        pack(0, 0, m.notes.count as u32)
    } else {
        refused(Refusal::BadStamp, 0)
    }
}

// The clock of a state moves: its image is replaced, and the records are filled. Any octets as a state, any stamp, and any room for records.
pub fn house_move(state: &mut [u8], stamp: u32, records: &mut [u8]) -> u64
    ensures { imaged_move_by result state.new records.new ≡ house_move state.old stamp records.old }
{
    let Some(state) = state.as_mut_array::<IMAGE_SIZE>() else {
        return refused(Refusal::UnsoundState, 0);
    };
    let s = state_in(state);
    if is_image_of(state, s) {
        move_state(s, state, stamp, records)
    } else {
        refused(Refusal::UnsoundState, 0)
    }
}
