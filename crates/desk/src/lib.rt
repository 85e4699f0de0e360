// The live calls for C, in lent memory: a state goes in and comes out as its image, records and answers as octets, the report as one number. `desk_c` exports
// them.
#![tactic(auto)]

ghost use Rattle.std.specs.Prelude.{◌≡◌};
ghost use Rattle.rules.specs.Live.{refused_number};

use base::refusal::Refusal;
use buffers::report::pack;

pub mod change;
pub mod clock;
pub mod fresh;
pub mod run;

// A refusal as a number: no record was written.
// Stays: reason and place are apart, since of the nine refusals that come here seven have place 0 and no check of their own.
pub(crate) fn refused(why: Refusal, place: u16) -> u64
    ensures { result ≡ refused_number why place }
{
    pack(u8::from(why), place, 0)
}
