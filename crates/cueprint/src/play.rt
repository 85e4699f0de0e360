// An accepted list, played to a pair of actuator and sensor, and what is printed of it as it happens.
ghost use Rattle.std.specs.Prelude.{◌*◌, ◌≤◌, length, IfOk};
ghost use Rattle.rules.specs.Layout.{most_inputs};

use crate::lines::Printout;
use crate::show::Show;
use joined::pair::{joined_input, joined_move};
use lamps::lamp::Lamp;
use layout::INPUT_SIZE;
use live::fresh::fresh_state;
use octets::group::Group;
use phases::phase::due_at;
use records::status::record_of;
use rules::state::State;
use sensor::state::Sensor;
use std::io;
use std::io::Write;

// The pair, and the printout of what it does. Each method says how many records it printed.
#[derive(Drop)]
struct Player<'a, W> {
    printout: &'a mut Printout<W>,
    state: State,
    sensor: Sensor,
}

impl<W: Write> Player<'_, W> {
    // The clock moves.
    fn play_move(&mut self, stamp: u32) -> io::Result<u32>
        ensures { IfOk result (λ count. count ≤ 255) }
    {
        let moved = joined_move(self.state, self.sensor, stamp);
        self.state = moved.state;
        self.sensor = moved.sensor;
        self.printout.records(&moved.records, moved.count)?;
        self.printout.phase(self.state)?;
        Ok(u32::from(moved.count))
    }

    // The next timer, where it is due by a stamp: the clock moves to its own moment. (A phase without end says 0, and so does none that has one.)
    fn play_timer(&mut self, stamp: u32) -> io::Result<u32>
        ensures { IfOk result (λ count. count ≤ 255) }
    {
        let due = due_at(self.state.phase);
        if due > 0 && due <= stamp {
            self.play_move(due)
        } else {
            Ok(0)
        }
    }

    // All timers that are due by a stamp, one after the other: there are at most three.
    fn play_timers(&mut self, stamp: u32) -> io::Result<u32>
        ensures { IfOk result (λ count. count ≤ 765) }
    {
        Ok(self.play_timer(stamp)? + self.play_timer(stamp)? + self.play_timer(stamp)?)
    }

    // Input i, once the timers due by its stamp have run: what it sent, its own records, its answer.
    fn play_input(&mut self, i: usize, octets: [u8; INPUT_SIZE]) -> io::Result<u32>
        ensures { IfOk result (λ count. count ≤ 255) }
    {
        let done = joined_input(self.state, self.sensor, octets);
        self.state = done.state;
        self.sensor = done.sensor;
        self.printout.sent(i, done.sent)?;
        self.printout.records(&done.records, done.count)?;
        self.printout.answer(i, done.answer)?;
        self.printout.phase(self.state)?;
        Ok(u32::from(done.count))
    }

    // The timers due by the stamp of input i, then the input.
    fn play_turn(&mut self, i: usize, octets: [u8; INPUT_SIZE]) -> io::Result<u32>
        ensures { IfOk result (λ count. count ≤ 1020) }
    {
        Ok(self.play_timers(Group::new(&octets, 0).stamp())? + self.play_input(i, octets)?)
    }

    // The inputs, in list order.
    fn play_inputs(&mut self, inputs: &[[u8; INPUT_SIZE]]) -> io::Result<u32>
        requires { length inputs.now ≤ most_inputs }
        ensures { IfOk result (λ count. count ≤ 1020 * most_inputs) }
    {
        let mut count = 0;
        for (i, octets) in inputs.iter().enumerate() {
            count += self.play_turn(i, *octets)?;
        }
        Ok(count)
    }
}

// A list, from the start record to the end time. (The start record says what a fresh sensor has: off, at 0.)
#[tactic(auto, using(crate::proofs::Passed::inputs_as_counted))]
pub(crate) fn play<W: Write>(printout: &mut Printout<W>, show: Show<'_>) -> io::Result<()> {
    let (inputs, _) = show.file.inputs().as_chunks();
    printout.accepted(inputs.len())?;
    let state = fresh_state(show.file.parameters().octets).state;
    printout.record(record_of(0, Lamp::from(state)))?;
    printout.phase(state)?;
    let mut player = Player {
        printout,
        state,
        sensor: show.sensor,
    };
    let end = show.file.end_time();
    let count = player.play_inputs(inputs)? + player.play_timers(end)? + player.play_move(end)?;
    player.printout.end(1 + count)
}
