// The fresh state from parameters alone.
ghost use Rattle.std.specs.Prelude.{◌≡◌};
ghost use Rattle.rules.specs.Calls.{fresh_call};

use base::refusal::Refused;
use layout::form_alone;
use parameters::read::{ParameterOctets, check_parameters};
use rules::call::Fresh;
use states::fresh::{fresh_with, own_state};

// Any octets: 32 or 40 that are in range give the fresh state of their version, all others a refusal with its place and its own state.
#[tactic(auto, using(crate::proofs::ByValue::passed_length), unfolding(rules::specs::Calls::fresh_call, rules::specs::Calls::fresh_by, rules::specs::Parameters::check_alone))]
pub fn fresh_state(octets: &[u8]) -> Fresh
    ensures whole { result ≡ fresh_call octets.now }
{
    let form = form_alone(octets);
    match check_parameters(octets, form) {
        Ok(()) => {
            let parameters = ParameterOctets { octets, form };
            Fresh {
                state: fresh_with(parameters.params(), parameters.scenes()),
                code: 0,
                place: 0,
            }
        }
        Err(Refused { why, place }) => Fresh {
            state: own_state(),
            code: u8::from(why),
            place,
        },
    }
}
