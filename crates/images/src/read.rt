// The state that the octets of an image say.
ghost use Rattle.std.specs.Prelude.{◌≡◌};
ghost use Rattle.rules.specs.Answers.{phase_of, link_of};
ghost use Rattle.rules.specs.Images.{state_in};

use crate::IMAGE_SIZE;
use inputs::known_force;
use octets::read32;
use parameters::read::ParameterOctets;
use rules::form::{Form, Scale};
use rules::phase::Phase;
use rules::state::{Link, State};

const PARAMETERS_END: usize = 40;

// The link of a number in an image.
// Stays: a `From` would have to stand in `rules`, which has types and rules and no code.
#[tactic(auto, unfolding(rules::specs::Answers::link_of))]
fn link_of(number: u8) -> Link
    ensures { result ≡ link_of number }
{
    match number {
        0 => Link::Up,
        1 => Link::BusDown,
        _ => Link::PowerDown,
    }
}

// The phase of a number in an image, with this deadline if it has one.
// Stays: a `From` would have to stand in `rules`, which has types and rules and no code.
#[tactic(auto, unfolding(rules::specs::Answers::phase_of))]
fn phase_of(number: u8, deadline: u32) -> Phase
    ensures { result ≡ phase_of number deadline }
{
    match number {
        0 => Phase::Dark,
        1 => Phase::Lit,
        2 => Phase::Starting(false, deadline),
        3 => Phase::Starting(true, deadline),
        4 => Phase::Timed(deadline),
        5 => Phase::Warning(deadline),
        _ => Phase::Ending(deadline),
    }
}

// The state that octets say, an image or not.
#[tactic(auto, unfolding(rules::specs::Images::state_in))]
pub fn state_in(octets: &[u8; IMAGE_SIZE]) -> State
    ensures { result ≡ state_in octets.now }
{
    let form = Form {
        version: octets[40],
        scale: Scale::Tenths,
    };
    let written = ParameterOctets {
        octets: &octets[..PARAMETERS_END],
        form,
    };
    State {
        params: written.params(),
        scenes: written.scenes(),
        clock: read32(octets, 48),
        night: octets[41] == 1,
        lock: octets[42] == 1,
        force: known_force(octets[43]),
        link: link_of(octets[44]),
        atlocking: octets[45] == 1,
        atfailure: octets[46] == 1,
        phase: phase_of(octets[47], read32(octets, 52)),
    }
}
