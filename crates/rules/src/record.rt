// A status record: what the two status octets showed from its stamp on. The cause is the input's kind, 0 for a timer and for the start.
#[derive(Clone, Copy)]
pub struct Record {
    pub stamp: u32,
    pub value: u8,
    pub attributes: u8,
    pub cause: u8,
}
