// What the inputs of a list may be.
ghost use Rattle.std.specs.Prelude.{◌≡◌, ℕ, Bool, false, true, List};
ghost use Rattle.cues.specs.Checks.{is_edge, is_known};

use inputs::is_input_at;
use octets::group::Group;
use sensor::signal::{Signal, signal_at};

// A kind of list, by which eight octets are known in it.
pub trait Known {
    ghost known: { List ℕ → ℕ → Bool };

    fn is_known(group: Group) -> bool
        ensures { result ≡ known group.entry.octets.now group.entry.at };
}

// A list of the actuator's inputs.
pub struct Cues;

impl Known for Cues {
    ghost known = { is_known false };

    #[tactic(auto, unfolding(crate::specs::Checks::is_known))]
    fn is_known(group: Group) -> bool {
        is_input_at(group)
    }
}

// A list that takes edges of push buttons too.
pub struct CuesAndEdges;

impl Known for CuesAndEdges {
    ghost known = { is_known true };

    #[tactic(auto, unfolding(crate::specs::Checks::is_known))]
    fn is_known(group: Group) -> bool {
        is_input_at(group) || is_edge(signal_at(group))
    }
}

fn is_edge(s: Option<Signal>) -> bool
    ensures { result ≡ is_edge s }
{
    matches!(s, Some(Signal::Button1(_) | Signal::Button2(_)))
}
