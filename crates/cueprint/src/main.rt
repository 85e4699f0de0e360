// Reads a cue file on standard input and prints what its run does, or the refusal's number and place. Started with a word that begins with
// w, it reads a wall list; with one that begins with p, it prints the phase too, at the start, after each timer and each input, and at the end.
//
// Both are played to a pair: to one whose sensor does nothing a cue file is what it is to the actuator alone.
//
// What cannot be read or written is said on standard error, and the exit status is then 1.
#![tactic(auto)]

mod lines;
mod play;
mod read;
mod show;

use anyhow::Context;
use lines::Printout;
use std::env::Env;
use std::io;

// The longest wall list, of version 2, has 60 + 8 * 2048 + 4 octets, the longest cue file four less. One octet more is read, so that what is
// longer is seen to be too long.
const ROOM: usize = 60 + 8 * 2048 + 4 + 1;

// Whether the word at this place behind the program's name begins with a letter. Of a word that is longer the first eight octets are read.
fn begins_with(rt: &impl Env, place: usize, letter: u8) -> bool {
    let mut word = [0u8; 8];
    let _ = rt.arg(place, &mut word);
    word[0] == letter
}

// Whether the program was started with a word that begins with a letter; it takes two words.
fn told(rt: &impl Env, letter: u8) -> bool {
    begins_with(rt, 1, letter) || begins_with(rt, 2, letter)
}

fn main(rt: HostRuntime) -> anyhow::Result<()> {
    let mut room = [0u8; ROOM];
    let n = read::read_full(&mut rt.stdin(), &mut room).context("the list cannot be read")?;
    let list = &room[..n];
    let mut printout = Printout {
        out: io::writer(&rt),
        phases: told(&rt, b'p'),
    };
    let found = if told(&rt, b'w') {
        show::wall_list(list)
    } else {
        show::cue_file(list)
    };
    let printed = match found {
        Ok(show) => play::play(&mut printout, show),
        Err(refused) => printout.refused(u8::from(refused.why), refused.place),
    };
    printed.context("the printout cannot be written")
}
