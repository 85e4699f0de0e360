// The versions of the cue file. What differs between them is one row; all that reads a file is written once, for whatever the row says.

// How a time is written: as seconds in two octets, or as tenths of a second in four.
#[derive(Clone, Copy)]
pub enum Scale {
    Seconds,
    Tenths,
}

// The row of a version.
#[derive(Clone, Copy)]
pub struct Form {
    pub version: u8,
    pub scale: Scale,
}
