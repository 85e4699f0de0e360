// The records of one call, by value: at most three, the unused ones 0.
ghost use Rattle.std.specs.Prelude.{◌≡◌, ◌≤◌};
ghost use Rattle.lamps.specs.Lamps.{alone};
ghost use Rattle.records.specs.Notes.{note_of, added, no_notes};

use crate::status::{record_of, same_status};
use lamps::lamp::Lamp;
use rules::record::Record;

// Stays: the definition `notes` makes a Notes of a list of any length, so no ghost field can say that the count is at most 3.
#[derive(Clone, Copy)]
pub struct Notes {
    pub count: u8,
    pub records: [Record; 3],
}

impl Notes {
    #[tactic(auto, unfolding(crate::specs::Notes::no_notes, crate::specs::Notes::notes, rules::specs::Calls::places, rules::specs::Calls::blank))]
    pub fn none() -> Notes
        ensures { result ≡ no_notes }
    {
        let blank = Record {
            stamp: 0,
            value: 0,
            attributes: 0,
            cause: 0,
        };
        Notes {
            count: 0,
            records: [blank; 3],
        }
    }

    #[tactic(auto, unfolding(crate::specs::Notes::added))]
    pub fn add(mut self, x: Option<Record>) -> Notes
        requires { self.count ≤ 2 }
        ensures { result ≡ added self x }
    {
        if let Some(r) = x {
            self.records[self.count as usize] = r;
            self.count += 1;
        }
        self
    }
}

// The record of a change, where value or attributes changed.
#[tactic(auto, unfolding(crate::specs::Notes::note_of))]
pub fn written(cause: u8, before: Lamp, after: Lamp) -> Option<Record>
    ensures { result ≡ note_of cause (alone before) (alone after) }
{
    if same_status(before, after) {
        None
    } else {
        Some(record_of(cause, after))
    }
}
