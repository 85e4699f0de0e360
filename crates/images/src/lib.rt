// The image of a state: how it is read, how it is written, and which octets are one.
#![tactic(auto)]

ghost use Rattle.std.specs.Prelude.{◌≡◌};
ghost use Rattle.rules.specs.Images.{state_in, is_image};

use plain::is_plain;
use rules::state::State;
use states::sound::is_sound;

mod plain;
pub mod put;
pub mod read;

pub const IMAGE_SIZE: usize = 56;

// Whether octets are the image of a sound state, where the state that they say is at hand.
pub fn is_image_of(octets: &[u8; IMAGE_SIZE], s: State) -> bool
    requires { s ≡ state_in octets.now }
    ensures { result ≡ is_image octets.now }
{
    is_plain(octets) && is_sound(s)
}
