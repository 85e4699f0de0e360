// The parameters and the scene table: whether octets are accepted as such, and what they say.
ghost use Rattle.std.specs.Prelude.{◌≡◌, ◌<◌, length};
ghost use Rattle.rules.specs.Layout.{parameters_size, scene_place};
ghost use Rattle.rules.specs.Parameters.{delay, params_of, scene_at, scenes_of, check_parameters};

use base::refusal::{Refusal, Refused};
use layout::{flags_place, modes_at, parameters_size, scene_place, time_place};
use octets::{read16, read32};
use rules::form::{Form, Scale};
use rules::parameters::{Params, Scene};
use std::array;

// The octets of parameters, as many as the row of their version says.
#[derive(Clone, Copy)]
pub struct ParameterOctets<'a> {
    pub octets: &'a [u8],
    pub form: Form,
    pub ghost whole: { length octets.now ≡ parameters_size form },
}

// Whether octets are accepted as parameters of this row: first their length, then the lowest octet that is out of range.
#[tactic(auto, unfolding(rules::specs::Parameters::check_parameters))]
pub fn check_parameters(octets: &[u8], form: Form) -> Result<(), Refused>
    ensures { result ≡ check_parameters form octets.now }
{
    if octets.len() != parameters_size(form) {
        return Err(Refused {
            why: Refusal::WrongLength,
            place: 0,
        });
    }
    ParameterOctets { octets, form }.lowest_bad()
}

impl ParameterOctets<'_> {
    // Time n, in tenths of a second: here, and nowhere else, seconds become tenths.
    #[tactic(auto, unfolding(rules::specs::Parameters::delay, rules::specs::Parameters::time_at))]
    pub(crate) fn delay(self, n: usize) -> u32
        requires { n < 4 }
        ensures { result ≡ delay self.entry.form self.entry.octets.now n }
    {
        let at = time_place(self.form, n);
        match self.form.scale {
            Scale::Seconds => 10 * read16(self.octets, at),
            Scale::Tenths => read32(self.octets, at),
        }
    }

    // The parameters that the octets say, accepted or not.
    #[tactic(auto, unfolding(rules::specs::Parameters::params_of))]
    pub fn params(self) -> Params
        ensures { result ≡ params_of self.entry.form self.entry.octets.now }
    {
        let modes = modes_at(self.form);
        Params {
            version: self.form.version,
            ondelay: self.delay(0),
            offdelay: self.delay(1),
            timedon: self.delay(2),
            prewarning: self.delay(3),
            locking: self.octets[modes],
            unlocking: self.octets[modes + 1],
            busfailure: self.octets[modes + 2],
            busreturn: self.octets[modes + 3],
            powerreturn: self.octets[modes + 4],
            learning: self.octets[modes + 5] == 1,
        }
    }

    // Scene entry n: its number, then its flags, of which bit 0 is the value and bit 1 says that it was taught in.
    #[tactic(auto, unfolding(rules::specs::Parameters::scene_at))]
    fn scene(self, n: usize) -> Scene
        requires { n < 8 }
        ensures { result ≡ scene_at self.entry.octets.now (scene_place self.entry.form n) }
    {
        let flags = self.octets[flags_place(self.form, n)];
        Scene {
            number: self.octets[scene_place(self.form, n)],
            value: flags % 2 == 1,
            taught: flags / 2 % 2 == 1,
        }
    }

    // The eight scene entries that the octets say, accepted or not.
    #[tactic(auto, unfolding(rules::specs::Parameters::scenes_of))]
    pub fn scenes(self) -> [Scene; 8]
        ensures { result ≡ scenes_of self.entry.form self.entry.octets.now }
    {
        array::from_fn(|n| self.scene(n))
    }
}
