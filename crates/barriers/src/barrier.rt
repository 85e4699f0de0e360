// Which input counts: the barriers of each kind as one table, and the first that an input meets.
ghost use Rattle.std.specs.Prelude.{◌≡◌, ◌≤◌};
ghost use Rattle.rules.specs.Barriers.{row_of, sets_value, outranked, barrier_to};

use lamps::lamp::Lamp;
use rules::barrier::{Barrier, Row, Why};
use rules::input::Force;
use rules::state::Link;

// What stops "the low inputs: switch, timed, scene, night".
const LOW: Row = Row {
    power: true,
    bus: true,
    lock: true,
    force: true,
};

// What stops a forced input, a lock, and the events of the bus and of the power.
const FORCED: Row = Row {
    power: true,
    bus: true,
    lock: true,
    force: false,
};

const LOCK: Row = Row {
    power: true,
    bus: true,
    lock: false,
    force: false,
};

const BUS: Row = Row {
    power: true,
    bus: false,
    lock: false,
    force: false,
};

const POWER: Row = Row {
    power: false,
    bus: false,
    lock: false,
    force: false,
};

// The table: a row for each kind, from 1 SwitchOnOff to 8 power.
static ROWS: [Row; 8] = [LOW, LOW, LOW, FORCED, LOCK, LOW, BUS, POWER];

#[tactic(auto, unfolding(rules::specs::Barriers::row_of, rules::specs::Barriers::rows))]
fn row_of(kind: u8) -> Row
    requires { (1 ≤ kind) × (kind ≤ 8) }
    ensures { result ≡ row_of kind }
{
    ROWS[kind as usize - 1]
}

// Beside the table, the kinds that set a value: force and night.
#[tactic(auto, unfolding(rules::specs::Barriers::sets_value))]
fn sets_value(kind: u8) -> bool
    ensures { result ≡ sets_value kind }
{
    matches!(kind, 4 | 6)
}

// What lock and force do to an input that they outrank: a value is noted.
#[tactic(auto, unfolding(rules::specs::Barriers::outranked))]
fn outranked(kind: u8, why: Why) -> Barrier
    ensures { result ≡ outranked (sets_value kind) why }
{
    if sets_value(kind) {
        Barrier::Notes
    } else {
        Barrier::Stopped(why)
    }
}

// What an input of a kind meets: the first barrier of its row that stands. Whether it sets a value is asked last, so that an input that
// nothing stops does not pay for it.
// Stays: the kind is its number, as `barrier_to` and `row_of` are of it, and is asked before the input is built (docs/DECISIONS.md, 44).
#[tactic(auto, unfolding(rules::specs::Barriers::barrier_to, rules::specs::Barriers::first_barrier))]
pub fn barrier_to(l: Lamp, kind: u8) -> Barrier
    requires { (1 ≤ kind) × (kind ≤ 8) }
    ensures { result ≡ barrier_to kind l.link l.lock l.force }
{
    let row = row_of(kind);
    if row.power && l.link == Link::PowerDown {
        Barrier::Stopped(Why::NoPower)
    } else if row.bus && l.link == Link::BusDown {
        Barrier::Stopped(Why::NoBus)
    } else if row.lock && l.lock {
        outranked(kind, Why::Locked)
    } else if row.force && l.force != Force::Free {
        outranked(kind, Why::Forced)
    } else {
        Barrier::Open
    }
}
