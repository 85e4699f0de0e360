// The items of a checked list, one after the other.
ghost use Rattle.std.specs.Prelude.{◌+◌, ◌*◌, ◌≤◌, length};
ghost use Rattle.rules.specs.Layout.{most_inputs, record_place};
ghost use Rattle.phases.specs.Room.{Room};
ghost use Rattle.pairs.specs.Pairs.{pair_of};
ghost use Rattle.turns.specs.Turns.{listened};
ghost use Rattle.player.specs.Playing.{Ready, ItemsPlayed, Advanced};

use actuator::step::{fate_of, scenes_after, take};
use buffers::put::put_note;
use inputs::known_input;
use lamps::lamp::Lamp;
use layout::input_place;
use octets::group::Group;
use rules::parameters::Params;
use rules::state::State;
use sensor::state::Sensor;
use timers::clock::{is_due, run_timer};
use turns::heard::Listener;
use turns::turn::turn_at;

// Where playing has come to: the state, the sensor, which has heard the first so many records, and how many records stand in the buffer.
#[derive(Clone, Copy)]
pub struct Reached {
    pub state: State,
    pub sensor: Sensor,
    pub heard: u32,
    pub count: u32,
}

// What a clock move leaves: the lamp, and how many records stand in the buffer.
#[derive(Clone, Copy)]
pub struct Moment {
    pub lamp: Lamp,
    pub count: u32,
}

// Stays: the buffers and the count of what stands in them are parameters of their own, as C lends the ones (`house_run`) and the loop keeps the other.
// The clock of a lamp moves to t: the timers due, until none is. Their records follow those before, which are at most three for
// each of 2,048 inputs.
fn advance(records: &mut [u8], count: u32, p: Params, l: Lamp, t: u32) -> Moment
    requires { Room p t × (count ≤ 3 * most_inputs) × (record_place (count + 2) ≤ length records.old) }
    ensures { Advanced p l t count records.old result records.new }
{
    let mut ph = l.phase;
    let mut n = count;
    while is_due(ph, t) {
        let timer = run_timer(p, l, ph);
        n = put_note(records, n, timer.note);
        ph = timer.phase;
    }
    Moment {
        lamp: l.at_moment(t, ph),
        count: n,
    }
}

// The first n items of a list, where so many records stand in the buffer already, none of which the sensor has heard: an item's records
// follow those before it, its answer has its index. An edge that sends is played as the input that it sends; an edge that sends nothing changes
// nothing at the actuator but its clock, once the due timers have run.
pub fn play_items(
    inputs: &[u8],
    n: u32,
    start: State,
    first: Sensor,
    before: u32,
    records: &mut [u8],
    answers: &mut [u8],
) -> Reached
    requires { Ready inputs.now n (pair_of start (listened records.old before first 0)) × (before ≤ 1) × (record_place (3 * n + before) ≤ length records.old) × (n ≤ length answers.old) }
    ensures { ItemsPlayed inputs.now n start first before records.old answers.old result records.new answers.new }
{
    let p = start.params;
    let mut k = start.scenes;
    let mut l = Lamp::from(start);
    let mut z = first;
    let mut heard: u32 = 0;
    let mut count = before;
    for i in 0..n {
        let at = input_place(i);
        let group = Group::new(inputs, at);
        let t = group.stamp();
        let m = advance(records, count, p, l, t);
        let listener = Listener {
            sensor: z,
            heard,
            records,
            count: m.count,
        };
        let turn = turn_at(group, t, listener);
        z = turn.sensor;
        heard = turn.heard;
        match turn.asked {
            None => {
                l = m.lamp;
                count = m.count;
                answers[i as usize] = 1;
            }
            Some(order) => match fate_of(m.lamp, order.kind) {
                Err(answer) => {
                    l = m.lamp;
                    count = m.count;
                    answers[i as usize] = answer;
                }
                Ok(noted) => {
                    let x = known_input(order.kind, order.value);
                    let d = take(p, k, m.lamp, x, noted);
                    // Stays: tried without this variable, and the borrow checker refuses a call's result laid over the array.
                    let table = scenes_after(p, k, m.lamp, x);
                    k = table;
                    l = d.lamp;
                    count = put_note(records, m.count, d.note);
                    answers[i as usize] = d.answer;
                }
            },
        }
    }
    Reached {
        state: l.in_state(p, k),
        sensor: z,
        heard,
        count,
    }
}
