// A number is recalled from the table, or learnt.
ghost use Rattle.std.specs.Prelude.{◌≡◌};
ghost use Rattle.rules.specs.Scenes.{recalled, learnt};

use rules::parameters::Scene;

// What recalling a number asks for: the first entry of that number tells, where it was taught.
pub fn recalls(k: [Scene; 8], number: u8) -> Option<bool>
    ensures { result ≡ recalled k number }
{
    match k.iter().find(|e| e.number == number) {
        Some(e) if e.taught => Some(e.value),
        _ => None,
    }
}

// The table after the entry of a number has learnt an output; a number that is not in the table changes nothing.
pub fn learns(mut k: [Scene; 8], number: u8, on: bool) -> [Scene; 8]
    ensures { result ≡ learnt k number on }
{
    if let Some(i) = k.iter().position(|e| e.number == number) {
        k[i] = Scene {
            value: on,
            taught: true,
            ..k[i]
        };
    }
    k
}
