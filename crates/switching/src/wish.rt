// What an input asks of the light. Timed stop and scene recall come to On, Off or nothing, so each is carried out in one place.
ghost use Rattle.std.specs.Prelude.{◌≡◌};
ghost use Rattle.switching.specs.Wishes.{switch_asks, stop_asks, timed_asks, recall_asks, scene_asks};

use rules::parameters::Scene;
use rules::phase::Phase;
use scenes::table::recalls;

#[derive(Clone, Copy)]
pub enum Wish {
    Nothing,
    On,
    Off,
    TimedStart,
}

pub fn switch_asks(on: bool) -> Wish
    ensures { result ≡ switch_asks on }
{
    if on { Wish::On } else { Wish::Off }
}

// A timed stop is an Off to a light that is timed, and nothing to any other.
fn stop_asks(phase: Phase) -> Wish
    ensures { result ≡ stop_asks phase }
{
    match phase {
        Phase::Starting(true, _) | Phase::Timed(_) | Phase::Warning(_) => Wish::Off,
        Phase::Dark | Phase::Lit | Phase::Starting(false, _) | Phase::Ending(_) => Wish::Nothing,
    }
}

pub fn timed_asks(phase: Phase, start: bool) -> Wish
    ensures { result ≡ timed_asks phase start }
{
    if start {
        Wish::TimedStart
    } else {
        stop_asks(phase)
    }
}

fn recall_asks(found: Option<bool>) -> Wish
    ensures { result ≡ recall_asks found }
{
    found.map_or(Wish::Nothing, switch_asks)
}

// Learning asks nothing of the light: it changes the table.
// Stays: `learn` is a value of the input, as `scene` takes it.
#[tactic(auto, unfolding(crate::specs::Wishes::scene_asks))]
pub fn scene_asks(k: [Scene; 8], learn: bool, number: u8) -> Wish
    ensures { result ≡ scene_asks k learn number }
{
    if learn {
        Wish::Nothing
    } else {
        recall_asks(recalls(k, number))
    }
}
