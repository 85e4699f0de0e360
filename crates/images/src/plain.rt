// Whether octets say nothing but what a state holds: a few tests, and nothing is written.
ghost use Rattle.std.specs.Prelude.{◌≡◌};
ghost use Rattle.images.specs.Plain.{plain_modes, plain_flags, plain_bits, plain_numbers, plain_deadline, is_plain};

use crate::IMAGE_SIZE;
use octets::read32;

const FLAGS_AT: usize = 25;

// Scene learning, and the two zeros behind it.
#[tactic(auto, unfolding(crate::specs::Plain::plain_modes))]
fn plain_modes(octets: &[u8; IMAGE_SIZE]) -> bool
    ensures { result ≡ plain_modes octets.now }
{
    octets[21] <= 1 && octets[22] == 0 && octets[23] == 0
}

// The flags of the scenes.
fn plain_flags(octets: &[u8; IMAGE_SIZE]) -> bool
    ensures { result ≡ plain_flags octets.now 8 0 }
{
    (0..8).all(|n| octets[FLAGS_AT + 2 * n] <= 3)
}

// Night, lock, and the outputs remembered.
#[tactic(auto, unfolding(crate::specs::Plain::plain_bits))]
fn plain_bits(octets: &[u8; IMAGE_SIZE]) -> bool
    ensures { result ≡ plain_bits octets.now }
{
    octets[41] <= 1 && octets[42] <= 1 && octets[45] <= 1 && octets[46] <= 1
}

// Force, link and phase.
#[tactic(auto, unfolding(crate::specs::Plain::plain_numbers))]
fn plain_numbers(octets: &[u8; IMAGE_SIZE]) -> bool
    ensures { result ≡ plain_numbers octets.now }
{
    octets[43] <= 3 && octets[43] != 1 && octets[44] <= 2 && octets[47] <= 6
}

// Dark and Lit have no deadline.
#[tactic(auto, unfolding(crate::specs::Plain::plain_deadline))]
fn plain_deadline(octets: &[u8; IMAGE_SIZE]) -> bool
    ensures { result ≡ plain_deadline octets.now }
{
    octets[47] > 1 || read32(octets, 52) == 0
}

#[tactic(auto, unfolding(crate::specs::Plain::is_plain))]
pub(crate) fn is_plain(octets: &[u8; IMAGE_SIZE]) -> bool
    ensures { result ≡ is_plain octets.now }
{
    plain_modes(octets)
        && plain_flags(octets)
        && plain_bits(octets)
        && plain_numbers(octets)
        && plain_deadline(octets)
}
