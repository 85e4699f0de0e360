// What is printed of octets, records and reports, each as a value that can be displayed.
use rules::record::Record;
use std::fmt;

// Octets as hexadecimal digits, in groups of eight.
#[derive(Clone, Copy)]
pub(crate) struct Octets<'a>(pub &'a [u8]);

impl fmt::Display for Octets<'_> {
    fn fmt<W: fmt::Write>(&self, f: &mut fmt::Formatter<W>) -> fmt::Result {
        for group in self.0.chunks(8) {
            f.write_str(" ")?;
            for octet in group {
                write!(f, "{octet:02x}")?;
            }
        }
        Ok(())
    }
}

// A part of a line, behind a bar.
#[derive(Clone, Copy)]
pub(crate) struct Part<'a>(pub &'a [u8]);

impl fmt::Display for Part<'_> {
    fn fmt<W: fmt::Write>(&self, f: &mut fmt::Formatter<W>) -> fmt::Result {
        write!(f, " |{}", Octets(self.0))
    }
}

// A part for each record: its stamp in four octets, its value, its attributes, its cause.
#[derive(Clone, Copy)]
pub(crate) struct Records<'a>(pub &'a [Record]);

impl fmt::Display for Records<'_> {
    fn fmt<W: fmt::Write>(&self, f: &mut fmt::Formatter<W>) -> fmt::Result {
        for r in self.0 {
            let [a, b, c, d] = r.stamp.to_be_bytes();
            write!(f, "{}", Part(&[a, b, c, d, r.value, r.attributes, r.cause]))?;
        }
        Ok(())
    }
}

// The code, place, answer and count of a call, 0 where it gives no answer or count.
#[derive(Clone, Copy)]
pub(crate) struct Report(pub u8, pub u16, pub u8, pub u32);

impl fmt::Display for Report {
    fn fmt<W: fmt::Write>(&self, f: &mut fmt::Formatter<W>) -> fmt::Result {
        let Report(code, place, answer, count) = *self;
        write!(f, " > {code} {place} {answer} {count}")
    }
}
