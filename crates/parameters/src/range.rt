// Which octets of the parameters are out of range.
ghost use Rattle.base.specs.Refusals.{refused_with};
ghost use Rattle.std.specs.Prelude.{◌≡◌, ◌<◌, false, cond, leb};
ghost use Rattle.base.specs.declared.refusal.Refusal.TheVariants.{BadParameter};
ghost use Rattle.rules.specs.Layout.{parameters_size, modes_at, scenes_at};
ghost use Rattle.rules.specs.Parameters.{bad_time, bad_number, bad_flags, lowest_bad};
ghost use Rattle.parameters.specs.Seen.{noted, bad_after};

use crate::read::ParameterOctets;
use base::moment::LONGEST_DELAY;
use base::refusal::{Refusal, Refused};
use layout::{flags_place, modes_at, scene_place, time_place};

// The greatest value of each of the eight octets behind the times: five modes, the learning mode, two octets that are zero.
const GREATEST: [u8; 8] = [2, 3, 2, 2, 2, 1, 0, 0];

// A scene number that is too large, or that an entry before has: so a repeated number is bad at the later entry.
#[tactic(auto, unfolding(crate::specs::Seen::bad_after))]
fn bad_number(seen: &[u8; 64], number: u8) -> bool
    ensures { result ≡ bad_after seen.now number }
{
    if number <= 63 {
        seen[number as usize] == 1
    } else {
        number != 255
    }
}

// One number more; an unused entry has none.
#[tactic(auto, unfolding(crate::specs::Seen::noted))]
fn note(seen: &mut [u8; 64], number: u8)
    ensures { seen.new ≡ noted seen.old number }
{
    if number <= 63 {
        seen[number as usize] = 1;
    }
}

// The flags of a used entry have two bits, those of an unused one none.
fn greatest_flags(number: u8) -> u8
    ensures { result ≡ cond (leb number 63) 3 0 }
{
    if number <= 63 { 3 } else { 0 }
}

// The refusal of the octet at a place.
fn bad_at(at: usize) -> Result<(), Refused>
    requires { at < 65536 }
    ensures { result ≡ refused_with BadParameter at }
{
    Err(Refused {
        why: Refusal::BadParameter,
        place: at as u16,
    })
}

impl ParameterOctets<'_> {
    // The lowest octet that is out of range. A time is bad at its first octet.
    #[tactic(auto, using(crate::proofs::Loops::time_step))]
    pub(crate) fn lowest_bad(self) -> Result<(), Refused>
        ensures { result ≡ lowest_bad self.entry.form self.entry.octets.now (parameters_size self.entry.form) 0 }
    {
        for n in 0..4 {
            if self.bad_time(n) {
                return bad_at(time_place(self.form, n));
            }
        }
        self.lowest_bad_from_modes()
    }

    // Time n is too long, or it is TimedOn, the third of them, and 0.
    #[tactic(auto, unfolding(rules::specs::Parameters::bad_time))]
    fn bad_time(self, n: usize) -> bool
        requires { n < 4 }
        ensures { result ≡ bad_time self.entry.form self.entry.octets.now n }
    {
        let t = self.delay(n);
        LONGEST_DELAY < t || (n == 2 && t == 0)
    }

    // The modes against the table, then the scenes.
    #[tactic(auto, using(crate::proofs::Loops::mode_step), unfolding(rules::specs::Parameters::greatest))]
    fn lowest_bad_from_modes(self) -> Result<(), Refused>
        ensures { result ≡ lowest_bad self.entry.form self.entry.octets.now 24 (modes_at self.entry.form) }
    {
        for (mode, greatest) in GREATEST.iter().enumerate() {
            let at = modes_at(self.form) + mode;
            if *greatest < self.octets[at] {
                return bad_at(at);
            }
        }
        self.lowest_bad_from_scenes()
    }

    // The eight scene entries, each its number and then its flags. An octet for each number tells whether an entry before has it.
    // Stays: it is 1 for a number that was seen, as the definitions have it (`Seen.noted`).
    #[tactic(auto, using(crate::proofs::Loops::entry_step, crate::proofs::Loops::entries_end, crate::proofs::Loops::bad_as_seen, crate::proofs::Loops::noted_is_seen))]
    fn lowest_bad_from_scenes(self) -> Result<(), Refused>
        ensures { result ≡ lowest_bad self.entry.form self.entry.octets.now 16 (scenes_at self.entry.form) }
    {
        let mut seen = [0u8; 64];
        for entry in 0..8 {
            let number = self.octets[scene_place(self.form, entry)];
            if bad_number(&seen, number) {
                return bad_at(scene_place(self.form, entry));
            }
            note(&mut seen, number);
            if self.bad_flags(entry) {
                return bad_at(flags_place(self.form, entry));
            }
        }
        Ok(())
    }

    // The flags of an entry whose number is in range, so that a number beyond 63 is unused.
    #[tactic(auto, using(crate::proofs::Loops::flags_known))]
    fn bad_flags(self, entry: usize) -> bool
        requires { (entry < 8) × (bad_number self.form self.octets.now entry ≡ false) }
        ensures { result ≡ bad_flags self.entry.form self.entry.octets.now entry }
    {
        let number = self.octets[scene_place(self.form, entry)];
        greatest_flags(number) < self.octets[flags_place(self.form, entry)]
    }
}
