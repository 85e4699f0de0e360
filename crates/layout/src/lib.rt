// Where the parts of a cue file stand and how long they are, for all code, by the row of the file's version. (What a record takes:
// `buffers`; the places inside the header and an input: where they are read; the buffer of `cueprint` repeats the length of the longest file.)
// Stays: as methods of `Form` these functions would stand in `rules`, which has no code, and a trait for the one type is no plainer.
#![tactic(auto)]

ghost use Rattle.std.specs.Prelude.{◌≡◌, ◌≤◌, ◌<◌, length};
ghost use Rattle.rules.specs.Forms.{width, form_of, is_version, form_in};
ghost use Rattle.rules.specs.Layout.{time_place, modes_at, scenes_at, scene_place, flags_place, parameters_size, form_alone, inputs_at, input_place, file_size};
ghost use Rattle.rules.specs.Files.{parameters_in, inputs_in};

use rules::form::{Form, Scale};

pub const PARAMETERS_AT: usize = 20;

// The shortest file: of version 1, without inputs.
pub const LEAST_FILE: usize = 52;

pub const INPUT_SIZE: usize = 8;

pub const MOST_INPUTS: u32 = 2048;

// The row of a version: version 1 where it is neither.
#[tactic(auto, unfolding(rules::specs::Forms::form_of))]
pub fn form_of(version: u32) -> Form
    ensures { result ≡ form_of version }
{
    if version == 2 {
        Form {
            version: 2,
            scale: Scale::Tenths,
        }
    } else {
        Form {
            version: 1,
            scale: Scale::Seconds,
        }
    }
}

// Whether a version has a row of its own.
#[tactic(auto, unfolding(rules::specs::Forms::is_version))]
pub fn is_version(version: u32) -> bool
    ensures { result ≡ is_version version }
{
    form_of(version).version as u32 == version
}

// The row of parameters that are offered alone: told by how many octets they are.
#[tactic(auto, unfolding(rules::specs::Layout::form_alone, rules::specs::Forms::form_of))]
pub fn form_alone(octets: &[u8]) -> Form
    ensures { result ≡ form_alone octets.now }
{
    let longer = form_of(2);
    if octets.len() == parameters_size(longer) {
        longer
    } else {
        form_of(1)
    }
}

// The octets of a time.
fn width_of(scale: Scale) -> usize
    ensures { (result ≡ width scale) × (result ≤ 4) }
{
    match scale {
        Scale::Seconds => 2,
        Scale::Tenths => 4,
    }
}

// ---- of the parameters

// Where time n stands.
// Stays: that an index is below 4 or 8 is asked at each place, since a type of such indices would be made at each call and be no plainer.
pub fn time_place(form: Form, n: usize) -> usize
    requires { n < 4 }
    ensures { (result ≡ time_place form n) × (result < 16) }
{
    width_of(form.scale) * n
}

pub fn modes_at(form: Form) -> usize
    ensures { (result ≡ modes_at form) × (result ≤ 16) }
{
    width_of(form.scale) * 4
}

fn scenes_at(form: Form) -> usize
    ensures { (result ≡ scenes_at form) × (result ≤ 24) }
{
    modes_at(form) + 8
}

// Where the number and the flags of scene entry n stand.
pub fn scene_place(form: Form, n: usize) -> usize
    requires { n < 8 }
    ensures { (result ≡ scene_place form n) × (result < 40) }
{
    scenes_at(form) + 2 * n
}

pub fn flags_place(form: Form, n: usize) -> usize
    requires { n < 8 }
    ensures { (result ≡ flags_place form n) × (result < 40) }
{
    scenes_at(form) + 1 + 2 * n
}

pub fn parameters_size(form: Form) -> usize
    ensures { (result ≡ parameters_size form) × (result ≤ 40) }
{
    scenes_at(form) + 16
}

// ---- of the file

// Where the inputs begin. A file without any ends there.
pub fn inputs_at(form: Form) -> usize
    ensures { (result ≡ inputs_at form) × (result ≤ 60) }
{
    PARAMETERS_AT + parameters_size(form)
}

// The parameters of a file.
#[tactic(auto, unfolding(rules::specs::Files::parameters_in))]
pub fn parameters_in(file: &[u8], form: Form) -> &[u8]
    requires { (form ≡ form_in file.now) × (inputs_at form ≤ length file.now) }
    ensures { result.now ≡ parameters_in file.now }
{
    &file[PARAMETERS_AT..inputs_at(form)]
}

// The inputs of a file.
#[tactic(auto, unfolding(rules::specs::Files::inputs_in))]
pub fn inputs_in(file: &[u8], form: Form) -> &[u8]
    requires { (form ≡ form_in file.now) × (inputs_at form ≤ length file.now) }
    ensures { result.now ≡ inputs_in file.now }
{
    &file[inputs_at(form)..]
}

// Where input i stands among the inputs.
pub fn input_place(i: u32) -> usize
    ensures { result ≡ input_place i }
{
    INPUT_SIZE * (i as usize)
}

// How long a file of n inputs is.
pub fn file_size(form: Form, n: u32) -> usize
    ensures { result ≡ file_size form n }
{
    inputs_at(form) + input_place(n)
}
