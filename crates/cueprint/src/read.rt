// Octets of the input.
ghost use Rattle.std.specs.Prelude.{◌≤◌, length, IfOk};

use std::io;
use std::io::{ErrorKind, Read};

// The next octets, until there is no more room or the input ends: how many there are, at the front of the room.
pub(crate) fn read_full<R: Read>(input: &mut R, room: &mut [u8]) -> io::Result<usize>
    ensures { IfOk result (λ n. n ≤ length room.new) }
{
    // Stays: counted by hand, since read_to_end takes its room from the heap, and read_exact does not say how many came.
    let mut done = 0;
    // A proved loop has to end, so it counts its reads, up to a number that no run reaches.
    for _ in 0..u64::MAX {
        if done == room.len() {
            break;
        }
        match input.read(&mut room[done..]) {
            Ok(0) => break,
            Ok(n) => done += n,
            Err(e) if e.kind() == ErrorKind::Interrupted => {}
            Err(e) => return Err(e),
        }
    }
    Ok(done)
}
