// What the public calls give back. An accepted call has code 0 and place 0.
// Stays: code, place and count are numbers and the records an array with blanks, as document 01 has them and the theorems name them (`SingleCodes`).
use crate::record::Record;
use crate::state::State;

// The fresh state from parameters alone.
#[derive(Clone, Copy)]
pub struct Fresh {
    pub state: State,
    pub code: u8,
    pub place: u16,
}

// A single input: at most three records, the unused ones 0.
#[derive(Clone, Copy)]
pub struct Single {
    pub state: State,
    pub code: u8,
    pub place: u16,
    pub answer: u8,
    pub count: u8,
    pub records: [Record; 3],
}

// A clock move: at most two records, the unused ones 0.
#[derive(Clone, Copy)]
pub struct Move {
    pub state: State,
    pub code: u8,
    pub place: u16,
    pub count: u8,
    pub records: [Record; 2],
}

// The run over a cue file, and a change. The records and the answers are in the lent buffers.
#[derive(Clone, Copy)]
pub struct Ran {
    pub state: State,
    pub code: u8,
    pub place: u16,
    pub count: u32,
}
