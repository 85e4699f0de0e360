// Puts the calls by value of the actuator, of the sensor and of the two joined through their paces, and prints all that they give. (Of the
// actuator alone a few of each kind: it is compared from C, tests/compare_live.rs.)
//
// Standard input is a list of steps, each a letter and its octets. tests/make_paces.py writes it, and tests/paces.rs plays
// the same steps on the independent model in Rust; what that prints is what this program has to print.
//
//     T n text      a title of n octets, printed as it is
//     P pair        the pair is what these 65 octets say, sound or not
//     N n octets    a fresh sensor from n octets of actions; also where they are refused, the sensor given is used on
//     E octets      one input of eight octets to the sensor alone
//     J octets      one input of eight octets to the pair
//     M stamp       a clock move of the pair, the stamp in four octets
//     S octets      one input of eight octets to the actuator alone
//     C stamp       a clock move of the actuator alone, the stamp in four octets
//     H n octets    a change of the actuator alone by n octets of inputs, with room for four
//     K             the pair is kept
//     B             back to the one that was kept
//
// A pair is the image of the actuator's state, 56 octets as in include/house.h, and the sensor: its four actions, its clock in four octets,
// its value. Octets that the input ends without are 0, and the letter 0 ends the play. What is printed, one line for each call:
//
//     N octets > code place 0 0 | sensor
//     E octets > code place 0 0 | octets sent | sensor
//     J octets > code place answer count | record | record | record | octets sent | state | sensor
//     M stamp > code place 0 count | record | record | state | sensor
//     S octets > code place answer count | record | record | record | state | sensor
//     C stamp > code place 0 count | record | record | state | sensor
//     H octets > code place 0 count | room for records | room for answers | state | sensor
//
// Octets are hexadecimal digits, in groups of eight; the report behind > is decimal, 0 where a call gives no answer or count. A record is its
// stamp in four octets, its value, its attributes, its cause.
#![tactic(auto)]

mod pair;
mod play;
mod show;

use pair::Pair;
use play::Player;
use std::io;
use std::io::Read;

fn main(rt: HostRuntime) -> io::Result<()> {
    let mut player = Player {
        steps: rt.stdin().chain(io::repeat(0)),
        out: io::writer(&rt),
        now: Pair::ZERO,
        kept: Pair::ZERO,
    };
    player.play()
}
