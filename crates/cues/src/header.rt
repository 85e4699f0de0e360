// The header: counts, offsets, the end time, and the length that they ask for; and the parts that stand behind it.
ghost use Rattle.std.specs.Prelude.{◌≡◌, ◌≤◌, length};
ghost use Rattle.rules.specs.Forms.{version, form_in};
ghost use Rattle.rules.specs.Layout.{least_file, inputs_at};
ghost use Rattle.rules.specs.Files.{actuators, input_count, end_time, layout_right, parameters_in, inputs_in};

use base::moment::LAST_STAMP;
use layout::{MOST_INPUTS, PARAMETERS_AT, file_size, form_of, inputs_at, inputs_in, parameters_in};
use octets::{read16, read32};
use parameters::read::ParameterOctets;
use rules::form::Form;

// Octets that are long enough to have a header.
#[derive(Clone, Copy)]
pub struct CueFile<'a> {
    pub octets: &'a [u8],
    pub ghost least: { least_file ≤ length octets.now },
}

impl<'a> CueFile<'a> {
    pub fn version(self) -> u32
        ensures { result ≡ version self.entry.octets.now }
    {
        read16(self.octets, 0)
    }

    // The row of its version.
    #[tactic(auto, unfolding(rules::specs::Forms::form_in))]
    pub fn form(self) -> Form
        ensures { result ≡ form_in self.entry.octets.now }
    {
        form_of(self.version())
    }

    pub fn actuators(self) -> u32
        ensures { result ≡ actuators self.entry.octets.now }
    {
        read16(self.octets, 2)
    }

    pub fn input_count(self) -> u32
        ensures { result ≡ input_count self.entry.octets.now }
    {
        read32(self.octets, 8)
    }

    pub fn end_time(self) -> u32
        ensures { result ≡ end_time self.entry.octets.now }
    {
        read32(self.octets, 16)
    }

    // Whether the offsets, the count and the end time are as they must be, and the file exactly as long as its inputs ask for.
    #[tactic(auto, unfolding(rules::specs::Files::layout_right))]
    pub fn layout_is_right(self) -> bool
        ensures { result ≡ layout_right self.entry.octets.now }
    {
        let form = self.form();
        let n = self.input_count();
        read32(self.octets, 4) as usize == PARAMETERS_AT
            && n <= MOST_INPUTS
            && read32(self.octets, 12) as usize == inputs_at(form)
            && self.end_time() <= LAST_STAMP
            && self.octets.len() == file_size(form, n)
    }

    // The parameters.
    #[tactic(auto, using(rules::proofs::Refusals::Files::parameters_whole))]
    pub fn parameters(self) -> ParameterOctets<'a>
        requires { inputs_at (form_in self.octets.now) ≤ length self.octets.now }
        ensures { (result.octets.now ≡ parameters_in self.entry.octets.now) × (result.form ≡ form_in self.entry.octets.now) }
    {
        let form = self.form();
        ParameterOctets {
            octets: parameters_in(self.octets, form),
            form,
        }
    }

    // The inputs.
    pub fn inputs(self) -> &'a [u8]
        requires { inputs_at (form_in self.octets.now) ≤ length self.octets.now }
        ensures { result.now ≡ inputs_in self.entry.octets.now }
    {
        inputs_in(self.octets, self.form())
    }
}
