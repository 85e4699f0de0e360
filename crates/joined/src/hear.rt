// Records, as the sensor hears them: each is a status at its stamp.
ghost use Rattle.std.specs.Prelude.{◌≡◌, ◌≤◌, take, fold};
ghost use Rattle.pairs.specs.Pairs.{hears};
ghost use Rattle.records.specs.Notes.{listed};
ghost use Rattle.joined.specs.Joints.{heard};

use records::notes::Notes;
use rules::record::Record;
use sensor::react::hear;
use sensor::state::Sensor;

// One record: its value is 0 or 255.
#[tactic(auto, unfolding(crate::specs::Joints::heard))]
fn hear_record(z: Sensor, r: Record) -> Sensor
    ensures { result ≡ heard r z }
{
    hear(z, r.stamp, r.value == 255)
}

// What a telegram wrote.
#[tactic(auto, unfolding(pairs::specs::Pairs::hears, crate::specs::Joints::heard))]
pub fn hear_note(z: Sensor, x: Option<Record>) -> Sensor
    ensures { result ≡ hears (listed x) z }
{
    x.map_or(z, |r| hear_record(z, r))
}

// Records, in order.
fn hear_all(z: Sensor, records: &[Record]) -> Sensor
    ensures { result ≡ fold (λ y r. heard r y) z records.now }
{
    records.iter().fold(z, |y, r| hear_record(y, *r))
}

// The used records of one call.
#[tactic(auto, using(crate::proofs::Hears::hearing_folds))]
pub fn hear_notes(z: Sensor, n: Notes) -> Sensor
    requires { n.count ≤ 3 }
    ensures { result ≡ hears (take n.count n.records) z }
{
    hear_all(z, &n.records[..n.count as usize])
}
