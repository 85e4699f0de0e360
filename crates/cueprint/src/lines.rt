// The lines of the printout: a letter or a word, and numbers.
use phases::phase::due_at;
use rules::record::Record;
use rules::state::State;
use states::same::phase_number;
use std::io;
use std::io::Write;

// What writes the lines, those of the phase only where they are wanted.
#[derive(Drop)]
pub(crate) struct Printout<W> {
    pub out: W,
    pub phases: bool,
}

impl<W: Write> Printout<W> {
    // OK: count of inputs.
    pub fn accepted(&mut self, inputs: usize) -> io::Result<()> {
        writeln!(self.out, "OK {inputs}")
    }

    // NO: code, place. It is the last line; a writer that holds lines back writes them with it.
    pub fn refused(&mut self, code: u8, place: u16) -> io::Result<()> {
        writeln!(self.out, "NO {code} {place}")?;
        self.out.flush()
    }

    // E: count of records. It is the last line, as NO is.
    pub fn end(&mut self, records: u32) -> io::Result<()> {
        writeln!(self.out, "E {records}")?;
        self.out.flush()
    }

    // A: input index from 0, answer.
    pub fn answer(&mut self, index: usize, answer: u8) -> io::Result<()> {
        writeln!(self.out, "A {index} {answer}")
    }

    // S: input index from 0, value; only where something was sent, and then the kind of it is 1.
    pub fn sent(&mut self, index: usize, sent: [u8; 8]) -> io::Result<()> {
        match sent {
            [_, _, _, _, 1, value, _, _] => writeln!(self.out, "S {index} {value}"),
            _ => Ok(()),
        }
    }

    // R: stamp, value, attributes, cause.
    pub fn record(&mut self, r: Record) -> io::Result<()> {
        writeln!(
            self.out,
            "R {} {} {} {}",
            r.stamp, r.value, r.attributes, r.cause
        )
    }

    // The first of some records.
    pub fn records(&mut self, records: &[Record], count: u8) -> io::Result<()> {
        for r in records.iter().take(usize::from(count)) {
            self.record(*r)?;
        }
        Ok(())
    }

    // P: clock, number of the phase as in an image, its deadline, 0 where it has none.
    pub fn phase(&mut self, s: State) -> io::Result<()> {
        if self.phases {
            writeln!(
                self.out,
                "P {} {} {}",
                s.clock,
                phase_number(s.phase),
                due_at(s.phase)
            )?;
        }
        Ok(())
    }
}
