// Records as octets, each at its place in a lent buffer.
ghost use Rattle.std.specs.Prelude.{◌≡◌, ◌&&◌, ◌+◌, ◌*◌, ◌≤◌, length, take, leb};
ghost use Rattle.octets.specs.Splice.{splice};
ghost use Rattle.rules.specs.Layout.{most_inputs, record_place, records_room};
ghost use Rattle.rules.specs.Runs.{record_octets, records_octets};
ghost use Rattle.records.specs.Notes.{listed};

use octets::write32;
use records::notes::Notes;
use rules::record::Record;

const RECORD_SIZE: usize = 8;

// Where a record stands that so many others come before.
pub fn record_place(count: u32) -> usize
    ensures { result ≡ record_place count }
{
    RECORD_SIZE * count as usize
}

// How many octets the records of n inputs can take: a start record, three for each input, two for the move to the end.
fn records_room(n: u32) -> usize
    requires { n ≤ most_inputs }
    ensures { result ≡ records_room n }
{
    record_place(3 * n + 3)
}

// Whether buffers of these lengths hold all that n inputs can give.
pub fn is_roomy(n: u32, records: usize, answers: usize) -> bool
    requires { n ≤ most_inputs }
    ensures { result ≡ (leb (records_room n) records && leb n answers) }
{
    records_room(n) <= records && n as usize <= answers
}

// Stays: a buffer and how many records stand in it are two parameters, since C lends the one and the caller keeps the other (`house_run`).
// One record, after so many: the stamp most significant octet first, value, attributes, cause, zero.
pub fn put_record(buf: &mut [u8], count: u32, r: Record)
    requires { record_place (count + 1) ≤ length buf.old }
    ensures { buf.new ≡ splice buf.old (record_place count) (record_octets r) }
{
    let at = record_place(count);
    write32(buf, at, r.stamp);
    // As one number: copied from an array, they are put together in memory and waited for there (docs/DECISIONS.md, 171).
    let rest = u32::from_be_bytes([r.value, r.attributes, r.cause, 0]);
    write32(buf, at + 4, rest);
}

// The used records of one call, one after the other, after so many. The room is asked for these alone: the clock move at the end of a run stands where
// three would not fit.
pub fn put_notes(buf: &mut [u8], before: u32, n: Notes)
    requires { (before ≤ 3 * most_inputs + 2) × (n.count ≤ 3) × (record_place (before + n.count) ≤ length buf.old) }
    ensures { buf.new ≡ splice buf.old (record_place before) (records_octets (take n.count n.records)) }
{
    for (j, r) in n.records[..n.count as usize].iter().enumerate() {
        put_record(buf, before + j as u32, *r);
    }
}

// The record of a timer or an input, where it wrote one, after so many; how many records stand in the buffer then.
pub fn put_note(buf: &mut [u8], before: u32, x: Option<Record>) -> u32
    requires { (before ≤ 3 * most_inputs + 2) × (record_place (before + length (listed x)) ≤ length buf.old) }
    ensures { (result ≡ before + length (listed x)) × (buf.new ≡ splice buf.old (record_place before) (records_octets (listed x))) }
{
    match x {
        None => before,
        Some(r) => {
            put_record(buf, before, r);
            before + 1
        }
    }
}
