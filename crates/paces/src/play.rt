// The play: what each step does, and what is printed of it.
use crate::pair::{Pair, SensorOctets, StateOctets};
use crate::show::{Octets, Part, Records, Report};
use changes::change::change;
use joined::pair::{joined_input, joined_move};
use live::clock::clock_move;
use live::single::single_input;
use sensor::call::{fresh_sensor, sensor_input};
use std::io;
use std::io::{Read, Write};

// The steps, whose octets must have no end, what is printed of them, the pair that they came to, and the pair that was kept.
#[derive(Drop)]
pub(crate) struct Player<R, W> {
    pub steps: R,
    pub out: W,
    pub now: Pair,
    pub kept: Pair,
}

impl<R: Read, W: Write> Player<R, W> {
    // ---- the octets of a step

    // The next ones.
    fn octets<const N: usize>(&mut self) -> io::Result<[u8; N]> {
        let mut octets = [0u8; N];
        self.steps.read_exact(&mut octets)?;
        Ok(octets)
    }

    // So many as the next one says.
    fn counted<'a>(&mut self, room: &'a mut [u8; 255]) -> io::Result<&'a [u8]> {
        let [n] = self.octets::<1>()?;
        let octets = &mut room[..usize::from(n)];
        self.steps.read_exact(octets)?;
        Ok(octets)
    }

    // The front of a line: the letter of the step, and the octets that its call is given.
    fn given<const N: usize>(&mut self, letter: &str) -> io::Result<[u8; N]> {
        write!(self.out, "{letter}")?;
        let octets = self.octets()?;
        write!(self.out, "{}", Octets(&octets))?;
        Ok(octets)
    }

    // The same, of so many octets as the next one says.
    fn given_counted<'a>(&mut self, letter: &str, room: &'a mut [u8; 255]) -> io::Result<&'a [u8]> {
        write!(self.out, "{letter}")?;
        let octets = self.counted(room)?;
        write!(self.out, "{}", Octets(octets))?;
        Ok(octets)
    }

    // ---- steps that call nothing

    fn title(&mut self) -> io::Result<()> {
        let mut room = [0u8; 255];
        let text = self.counted(&mut room)?;
        self.out.write_all(text)?;
        self.out.write_all(b"\n")
    }

    fn hand_over(&mut self) -> io::Result<()> {
        self.now = Pair {
            state: StateOctets(self.octets()?),
            sensor: SensorOctets(self.octets()?),
        };
        Ok(())
    }

    // ---- steps to the sensor alone

    fn fresh_sensor(&mut self) -> io::Result<()> {
        let mut room = [0u8; 255];
        let r = fresh_sensor(self.given_counted("N", &mut room)?);
        self.now.sensor = r.sensor.into();
        let report = Report(r.code, r.place, 0, 0);
        writeln!(self.out, "{report}{}", self.now.sensor)
    }

    fn sensor_input(&mut self) -> io::Result<()> {
        let octets = self.given("E")?;
        let r = sensor_input(self.now.sensor.into(), octets);
        self.now.sensor = r.sensor.into();
        let report = Report(r.code, r.place, 0, 0);
        writeln!(self.out, "{report}{}{}", Part(&r.sent), self.now.sensor)
    }

    // ---- steps to the pair

    fn joined_input(&mut self) -> io::Result<()> {
        let octets = self.given("J")?;
        let r = joined_input(self.now.state.into(), self.now.sensor.into(), octets);
        self.now = Pair::new(r.state, r.sensor);
        let report = Report(r.code, r.place, r.answer, r.count.into());
        let records = Records(&r.records);
        writeln!(self.out, "{report}{records}{}{}", Part(&r.sent), self.now)
    }

    fn joined_move(&mut self) -> io::Result<()> {
        let stamp = u32::from_be_bytes(self.given("M")?);
        let r = joined_move(self.now.state.into(), self.now.sensor.into(), stamp);
        self.now = Pair::new(r.state, r.sensor);
        let report = Report(r.code, r.place, 0, r.count.into());
        writeln!(self.out, "{report}{}{}", Records(&r.records), self.now)
    }

    // ---- steps to the actuator alone

    fn single_input(&mut self) -> io::Result<()> {
        let octets = self.given("S")?;
        let r = single_input(self.now.state.into(), octets);
        self.now.state = r.state.into();
        let report = Report(r.code, r.place, r.answer, r.count.into());
        writeln!(self.out, "{report}{}{}", Records(&r.records), self.now)
    }

    fn clock_move(&mut self) -> io::Result<()> {
        let stamp = u32::from_be_bytes(self.given("C")?);
        let r = clock_move(self.now.state.into(), stamp);
        self.now.state = r.state.into();
        let report = Report(r.code, r.place, 0, r.count.into());
        writeln!(self.out, "{report}{}{}", Records(&r.records), self.now)
    }

    // Both buffers are printed whole, so that what a refused change leaves in them is seen.
    fn change(&mut self) -> io::Result<()> {
        let mut room = [0u8; 255];
        let inputs = self.given_counted("H", &mut room)?;
        let mut records = [165u8; 120];
        let mut answers = [90u8; 4];
        let r = change(self.now.state.into(), inputs, &mut records, &mut answers);
        self.now.state = r.state.into();
        let report = Report(r.code, r.place, 0, r.count);
        let (records, answers) = (Part(&records), Part(&answers));
        writeln!(self.out, "{report}{records}{answers}{}", self.now)
    }

    // ---- all steps

    // The step of a letter. (One that is no step does nothing.)
    // Stays: an enum of the steps would list the letters a second time.
    fn step(&mut self, letter: u8) -> io::Result<()> {
        match letter {
            b'T' => self.title()?,
            b'P' => self.hand_over()?,
            b'N' => self.fresh_sensor()?,
            b'E' => self.sensor_input()?,
            b'J' => self.joined_input()?,
            b'M' => self.joined_move()?,
            b'S' => self.single_input()?,
            b'C' => self.clock_move()?,
            b'H' => self.change()?,
            b'K' => self.kept = self.now,
            b'B' => self.now = self.kept,
            _ => {}
        }
        Ok(())
    }

    // The steps up to the letter 0. A proved loop has to end, so it counts its turns, up to a number that no run reaches.
    pub fn play(&mut self) -> io::Result<()> {
        for _ in 0..u64::MAX {
            let [letter] = self.octets::<1>()?;
            if letter == 0 {
                break;
            }
            self.step(letter)?;
        }
        self.out.flush()
    }
}
