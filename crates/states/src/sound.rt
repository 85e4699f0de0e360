// Whether a state that a caller hands in is sound: one test for each rule.
ghost use Rattle.std.specs.Prelude.{◌≡◌, ◌||◌, ◌≤◌, ◌%◌, eqb};
ghost use Rattle.rules.specs.Forms.{unit};
ghost use Rattle.rules.specs.Parameters.{time_in_range, times_in_range, modes_in_range, params_in_range};
ghost use Rattle.rules.specs.Soundness.{soon, agrees, held_is_steady, force_decides, night_ends, power_down_is_clear, consistent, sound};
ghost use Rattle.rules.specs.Orders.{standing};

use base::moment::{LAST_STAMP, LONGEST_DELAY};
use layout::{form_of, is_version};
use phases::phase::deadline_of;
use rules::form::Scale;
use rules::input::Force;
use rules::parameters::Params;
use rules::phase::Phase;
use rules::state::{Link, State};
use scenes::range::scenes_in_range;

// The tenths that 1 lasts.
fn unit_of(scale: Scale) -> u32
    ensures { (result ≡ unit scale) × (1 ≤ result) }
{
    match scale {
        Scale::Seconds => 10,
        Scale::Tenths => 1,
    }
}

// Whether a time is so many of them: no time is cut short by a scale of tenths.
fn is_whole(scale: Scale, t: u32) -> bool
    ensures { result ≡ eqb (t % unit scale) 0 }
{
    match scale {
        Scale::Seconds => t % 10 == 0,
        Scale::Tenths => true,
    }
}

// A time that this scale can write.
#[tactic(auto, unfolding(rules::specs::Parameters::time_in_range))]
fn time_in_range(scale: Scale, t: u32) -> bool
    ensures { result ≡ time_in_range scale t }
{
    t <= LONGEST_DELAY && is_whole(scale, t)
}

#[tactic(auto, unfolding(rules::specs::Parameters::times_in_range))]
fn times_in_range(scale: Scale, p: Params) -> bool
    ensures { result ≡ times_in_range scale p }
{
    time_in_range(scale, p.ondelay)
        && time_in_range(scale, p.offdelay)
        && time_in_range(scale, p.timedon)
        && time_in_range(scale, p.prewarning)
        && unit_of(scale) <= p.timedon
}

#[tactic(auto, unfolding(rules::specs::Parameters::modes_in_range))]
fn modes_in_range(p: Params) -> bool
    ensures { result ≡ modes_in_range p }
{
    p.locking <= 2
        && p.unlocking <= 3
        && p.busfailure <= 2
        && p.busreturn <= 2
        && p.powerreturn <= 2
}

// In range for the version that the state keeps.
#[tactic(auto, unfolding(rules::specs::Parameters::params_in_range))]
fn params_in_range(p: Params) -> bool
    ensures { result ≡ params_in_range p }
{
    let version = u32::from(p.version);
    is_version(version) && times_in_range(form_of(version).scale, p) && modes_in_range(p)
}

#[tactic(auto, unfolding(rules::specs::Soundness::soon))]
fn is_soon(clock: u32, deadline: Option<u32>) -> bool
    ensures { result ≡ soon clock deadline }
{
    match deadline {
        None => true,
        Some(d) => clock < d && d - clock <= LONGEST_DELAY,
    }
}

// Whether lock or force stands.
// Stays: it is that of a lamp (`Lamp::is_held`) of a whole state, and to take a lamp out of the state for one test would be a copy.
fn is_held(s: &State) -> bool
    ensures { result ≡ (s.now.lock || standing s.now.force) }
{
    s.lock || s.force != Force::Free
}

fn force_agrees(force: Force, phase: Phase) -> bool
    ensures { result ≡ agrees force phase }
{
    match force {
        Force::Free => true,
        Force::Off => phase == Phase::Dark,
        Force::On => phase == Phase::Lit,
    }
}

#[tactic(auto, unfolding(rules::specs::Soundness::held_is_steady))]
fn held_is_steady(s: &State) -> bool
    ensures { result ≡ held_is_steady s.now.lock s.now.force s.now.phase }
{
    !is_held(s) || s.phase == Phase::Dark || s.phase == Phase::Lit
}

#[tactic(auto, unfolding(rules::specs::Soundness::force_decides))]
fn force_decides(s: &State) -> bool
    ensures { result ≡ force_decides s.now.lock s.now.force s.now.phase }
{
    s.lock || force_agrees(s.force, s.phase)
}

#[tactic(auto, unfolding(rules::specs::Soundness::night_ends))]
fn night_ends(s: &State) -> bool
    ensures { result ≡ night_ends s.now.night s.now.lock s.now.force s.now.phase }
{
    !(s.night && s.phase == Phase::Lit) || is_held(s)
}

#[tactic(auto, unfolding(rules::specs::Soundness::power_down_is_clear))]
fn power_down_is_clear(s: &State) -> bool
    ensures { result ≡ power_down_is_clear s.now.link s.now.night s.now.lock s.now.force s.now.phase }
{
    s.link != Link::PowerDown || s.phase == Phase::Dark && !(s.night || is_held(s))
}

#[tactic(auto, unfolding(rules::specs::Soundness::consistent))]
fn is_consistent(s: &State) -> bool
    ensures { result ≡ consistent s.now.night s.now.lock s.now.force s.now.link s.now.phase }
{
    held_is_steady(s) && force_decides(s) && night_ends(s) && power_down_is_clear(s)
}

#[tactic(auto, unfolding(rules::specs::Soundness::sound))]
pub fn is_sound(s: State) -> bool
    ensures { result ≡ sound s }
{
    params_in_range(s.params)
        && scenes_in_range(s.scenes)
        && s.clock <= LAST_STAMP
        && is_soon(s.clock, deadline_of(s.phase))
        && is_consistent(&s)
}
