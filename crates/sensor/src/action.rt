// The action of an edge, and the check of the four.
ghost use Rattle.std.specs.Prelude.{◌≡◌, nat_lt, position};
ghost use Rattle.sensor.specs.Actions.{check_actions};

use base::refusal::{Refusal, Refused};

// The greatest number of an action.
const LAST_ACTION: u8 = 3;

// What an edge does (DPT_PBAction).
#[derive(Clone, Copy)]
pub enum Action {
    Nothing,
    SendOff,
    SendOn,
    SendInverse,
}

// The action of a number up to 3.
#[tactic(auto, unfolding(crate::specs::Actions::action_of))]
impl From<u8> for Action {
    ghost use Rattle.sensor.specs.Actions.{action_of};

    ghost from_gives = { λ n action. action ≡ action_of n };

    fn from(n: u8) -> Action {
        match n {
            0 => Action::Nothing,
            1 => Action::SendOff,
            2 => Action::SendOn,
            _ => Action::SendInverse,
        }
    }
}

// The lowest octet above 3.
fn first_bad(octets: &[u8]) -> Option<usize>
    ensures { result ≡ position (nat_lt 3) octets.now }
{
    octets.iter().position(|n| *n > LAST_ACTION)
}

// Four octets, none above 3; else the lowest that is.
#[tactic(auto, using(crate::proofs::Actions::first_above_is_blamed, crate::proofs::Actions::none_above_is_passed, crate::proofs::Actions::other_lengths_are_wrong))]
pub fn check_actions(octets: &[u8]) -> Result<(), Refused>
    ensures { result ≡ check_actions octets.now }
{
    if octets.len() != 4 {
        return Err(Refused {
            why: Refusal::WrongLength,
            place: 0,
        });
    }
    match first_bad(octets) {
        None => Ok(()),
        Some(place) => Err(Refused {
            why: Refusal::BadAction,
            place: place as u16,
        }),
    }
}
