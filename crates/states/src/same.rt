// Whether anything but the clock differs between two lamps.
ghost use Rattle.std.specs.Prelude.{◌≡◌, ◌&&◌};
ghost use Rattle.lamps.specs.Lamps.{alone};
ghost use Rattle.rules.specs.Inputs.{force_number};
ghost use Rattle.rules.specs.Answers.{phase_number, same_phase, link_number, same_flags};

use lamps::lamp::Lamp;
use rules::input::Force;
use rules::phase::Phase;
use rules::state::Link;

// The number of a phase in an image.
// Stays: a `From` would have to stand in `rules`, which has types and rules and no code.
pub fn phase_number(phase: Phase) -> u8
    ensures { result ≡ phase_number phase }
{
    match phase {
        Phase::Dark => 0,
        Phase::Lit => 1,
        Phase::Starting(false, _) => 2,
        Phase::Starting(true, _) => 3,
        Phase::Timed(_) => 4,
        Phase::Warning(_) => 5,
        Phase::Ending(_) => 6,
    }
}

#[tactic(auto, unfolding(rules::specs::Answers::same_phase))]
pub fn same_phase(a: Phase, b: Phase) -> bool
    ensures { result ≡ same_phase a b }
{
    a == b
}

// The same for a force.
// Stays: a `From` would have to stand in `rules`, which has types and rules and no code.
pub fn force_number(force: Force) -> u8
    ensures { result ≡ force_number force }
{
    match force {
        Force::Free => 0,
        Force::Off => 2,
        Force::On => 3,
    }
}

// The same for a link: they stand in this order.
pub fn link_number(link: Link) -> u8
    ensures { result ≡ link_number link }
{
    link as u8
}

// What lamps hold beside clock and phase.
// Stays: the clause cites `same_flags`, which leaves out the phase and the clock, so that a derived == of two lamps is another test.
#[tactic(auto, unfolding(rules::specs::Answers::same_flags))]
fn same_flags(a: Lamp, b: Lamp) -> bool
    ensures { result ≡ same_flags (alone a) (alone b) }
{
    a.night == b.night
        && a.lock == b.lock
        && a.force == b.force
        && a.link == b.link
        && a.atlocking == b.atlocking
        && a.atfailure == b.atfailure
}

// Nothing but the clock differs between two lamps.
pub fn same_lamp(a: Lamp, b: Lamp) -> bool
    ensures { result ≡ (same_phase a.phase b.phase && same_flags (alone a) (alone b)) }
{
    same_phase(a.phase, b.phase) && same_flags(a, b)
}
