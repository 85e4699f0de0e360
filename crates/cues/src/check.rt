// The check of a whole file: the first thing that is wrong, in the order of the refusal numbers.
ghost use Rattle.base.specs.Refusals.{refused_with};
ghost use Rattle.std.specs.Prelude.{◌≡◌, ◌≤◌, length};
ghost use Rattle.rules.specs.Layout.{most_inputs, input_place};
ghost use Rattle.rules.specs.Readings.{verdict};
ghost use Rattle.rules.specs.Files.{input_count, end_time, inputs_in, check_rest, check_start, read_file};
ghost use Rattle.rules.specs.Refusals.{GoodStart};
ghost use Rattle.cues.specs.Checks.{check_one, check_inputs};

use crate::header::CueFile;
use crate::known::{Cues, Known};
use base::refusal::{Refusal, Refused};
use layout::{LEAST_FILE, input_place, inputs_at, is_version};
use octets::group::Group;
use parameters::read::check_parameters;

// Cold: what an input is refused with is then made where one is, and not at each input before it.
#[cold]
fn refused_at(why: Refusal, i: u32) -> Result<(), Refused>
    requires { i ≤ most_inputs }
    ensures { result ≡ refused_with why i }
{
    Err(Refused {
        why,
        place: i as u16,
    })
}

// Input i alone, known to mean something or not: 6 before 7.
#[tactic(auto, unfolding(crate::specs::Checks::check_one))]
fn check_one(known: bool, stamp: u32, last: u32, end: u32, i: u32) -> Result<(), Refused>
    requires { i ≤ most_inputs }
    ensures { result ≡ check_one known stamp last end i }
{
    if !known {
        return refused_at(Refusal::BadInput, i);
    }
    if last <= stamp && stamp <= end {
        Ok(())
    } else {
        refused_at(Refusal::BadStamp, i)
    }
}

// The first bad input of n: none is stamped before the one before it, the first not before `from`, and none after `end`.
// Stays: how many there are is a number beside the octets, as the definitions have it (`Readings.read_inputs`).
// Not inlined: within a whole run too few registers are left for it, and what it keeps from input to input lies in memory (docs/DECISIONS.md, 168).
#[inline(never)]
#[tactic(auto, using(crate::proofs::Inputs::none_left, crate::proofs::Inputs::one_left))]
pub fn check_inputs<K: Known>(inputs: &[u8], n: u32, from: u32, end: u32) -> Result<(), Refused>
    requires { (n ≤ most_inputs) × (input_place n ≤ length inputs.now) }
    ensures { result ≡ check_inputs (λ i. K.known inputs.now (input_place i)) inputs.now n 0 from end }
{
    let mut last = from;
    for i in 0..n {
        let group = Group::new(inputs, input_place(i));
        let stamp = group.stamp();
        check_one(K::is_known(group), stamp, last, end, i)?;
        last = stamp;
    }
    Ok(())
}

// The inputs of a file whose start is good.
#[tactic(auto, using(rules::proofs::Refusals::Files::inputs_whole))]
pub fn check_inputs_in<K: Known>(file: &[u8]) -> Result<(), Refused>
    requires { GoodStart file.now }
    ensures { result ≡ check_inputs (λ i. K.known (inputs_in file.now) (input_place i)) (inputs_in file.now) (input_count file.now) 0 0 (end_time file.now) }
{
    let file = CueFile { octets: file };
    check_inputs::<K>(file.inputs(), file.input_count(), 0, file.end_time())
}

// A row of the table whose place is 0.
fn refused(why: Refusal) -> Result<(), Refused>
    ensures { result ≡ refused_with why 0 }
{
    refused_at(why, 0)
}

impl CueFile<'_> {
    // What stands before the inputs, from the length that its version asks for on.
    #[tactic(auto, unfolding(rules::specs::Files::check_rest))]
    fn check_rest(self) -> Result<(), Refused>
        ensures { result ≡ check_rest self.entry.octets.now }
    {
        if self.octets.len() < inputs_at(self.form()) {
            return refused(Refusal::WrongLength);
        }
        if self.actuators() != 1 {
            return refused(Refusal::WrongActuators);
        }
        if !self.layout_is_right() {
            return refused(Refusal::WrongLayout);
        }
        let parameters = self.parameters();
        check_parameters(parameters.octets, parameters.form)
    }
}

// What stands before the inputs: the header, then the parameters.
#[tactic(auto, unfolding(rules::specs::Files::check_start))]
pub fn check_start(file: &[u8]) -> Result<(), Refused>
    ensures { result ≡ check_start file.now }
{
    if file.len() < LEAST_FILE {
        return refused(Refusal::WrongLength);
    }
    let file = CueFile { octets: file };
    if !is_version(file.version()) {
        return refused(Refusal::WrongVersion);
    }
    file.check_rest()
}

// A whole file: accepted, or refused for the first row of the table that holds.
#[tactic(auto, using(crate::proofs::Passed::passed_start_is_good, crate::proofs::Inputs::file_checked))]
pub fn check_file(file: &[u8]) -> Result<(), Refused>
    ensures { result ≡ verdict (read_file file.now) }
{
    check_start(file)?;
    check_inputs_in::<Cues>(file)
}
