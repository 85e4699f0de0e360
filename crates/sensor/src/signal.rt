// What a sensor takes: an edge of one of its buttons, or a status value.
ghost use Rattle.std.specs.Prelude.{◌≡◌};
ghost use Rattle.sensor.specs.Signals.{signalled, signal_at};

use octets::group::Group;

#[derive(Clone, Copy)]
pub enum Edge {
    Falling,
    Rising,
}

#[derive(Clone, Copy)]
pub enum Signal {
    Button1(Edge),
    Button2(Edge),
    Status(bool),
}

// Of a button: 1 is rising, 0 falling.
impl From<bool> for Edge {
    ghost use Rattle.sensor.specs.Signals.{edge_of};

    ghost from_gives = { λ rising edge. edge ≡ edge_of rising };

    fn from(rising: bool) -> Edge {
        if rising { Edge::Rising } else { Edge::Falling }
    }
}

// What a kind and a value mean: every kind takes 0 and 1.
// Stays: the kind is the octet that was read, as `signalled` is of any.
#[tactic(auto, using(crate::proofs::Signals::no_more_than_one), unfolding(crate::specs::Signals::signalled, crate::specs::Signals::zero_or_one))]
fn signal_of(kind: u8, value: u8) -> Option<Signal>
    ensures { result ≡ signalled kind value }
{
    if value > 1 {
        return None;
    }
    let one = value == 1;
    match kind {
        11 => Some(Signal::Button1(one.into())),
        12 => Some(Signal::Button2(one.into())),
        13 => Some(Signal::Status(one)),
        _ => None,
    }
}

// What eight octets mean.
#[tactic(auto, unfolding(crate::specs::Signals::signal_at))]
pub fn signal_at(group: Group) -> Option<Signal>
    ensures { result ≡ signal_at group.entry.octets.now group.entry.at }
{
    if group.ends_in_zeros() {
        signal_of(group.kind(), group.value())
    } else {
        None
    }
}
