// Which tables are in range.
ghost use Rattle.std.specs.Prelude.{◌≡◌, ◌&&◌, ◌||◌, eqb};
ghost use Rattle.rules.specs.Scenes.{entry_in_range, absent, scenes_in_range};

use rules::parameters::Scene;

// None of these entries has this number.
fn is_absent(entries: &[Scene], number: u8) -> bool
    ensures { result ≡ absent entries.now number }
{
    entries.iter().all(|e| e.number != number)
}

// An entry is in range, and its number does not come again in those after it. An unused entry is done with at once: others may be unused too.
#[tactic(auto, unfolding(rules::specs::Scenes::entry_in_range))]
fn entry_fits(e: Scene, later: &[Scene]) -> bool
    ensures { result ≡ (entry_in_range e && (eqb e.number 255 || absent later.now e.number)) }
{
    if e.number == 255 {
        !(e.value || e.taught)
    } else {
        e.number <= 63 && is_absent(later, e.number)
    }
}

#[tactic(auto, using(std::proofs::lemmas::List::drop_more), unfolding(rules::specs::Scenes::scenes_in_range))]
pub fn scenes_in_range(k: [Scene; 8]) -> bool
    ensures { result ≡ scenes_in_range k }
{
    for (i, e) in k.iter().enumerate() {
        if !entry_fits(*e, &k[i + 1..]) {
            return false;
        }
    }
    true
}
