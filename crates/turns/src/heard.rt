// What the sensor has heard of the records in a lent buffer.
ghost use Rattle.std.specs.Prelude.{◌≡◌, ◌≤◌, length};
ghost use Rattle.rules.specs.Layout.{record_place};

use buffers::put::record_place;
use octets::read32;
use sensor::react::hear;
use sensor::state::Sensor;

// A sensor beside a lent buffer, where so many records stand: it has heard the first of them, so many.
#[derive(Clone, Copy)]
pub struct Listener<'a> {
    pub sensor: Sensor,
    pub heard: u32,
    pub records: &'a [u8],
    pub count: u32,
    ghost behind: { heard ≤ count },
    ghost within: { record_place count ≤ length records.now },
}

impl<'a> Listener<'a> {
    ghost use Rattle.turns.specs.Turns.{listened};

    // The sensor once it has heard the rest. Each record is a status, so the last one decides: no record is handed on to the sensor when it
    // is written, and a list without edges never listens before its end.
    #[tactic(auto, unfolding(crate::specs::Turns::listened))]
    pub fn listen(self) -> Sensor
        ensures { result ≡ listened self.entry.records.now self.entry.count self.entry.sensor self.entry.heard }
    {
        if self.heard == self.count {
            return self.sensor;
        }
        let at = record_place(self.count - 1);
        hear(
            self.sensor,
            read32(self.records, at),
            self.records[at + 4] == 255,
        )
    }
}
