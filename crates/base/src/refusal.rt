// Why a call is refused, and the number of it.
ghost use Rattle.std.specs.Prelude.{◌≡◌};
ghost use Rattle.base.specs.Refusals.{number};

// The rows of the table of refusal numbers, in its order: nine of document 01, then those that its requests add.
#[derive(Clone, Copy)]
pub enum Refusal {
    WrongLength = 1,
    WrongVersion,
    WrongActuators,
    WrongLayout,
    BadParameter,
    BadInput,
    BadStamp,
    ShortBuffer,
    UnsoundState,
    BadAction = 11,
    WrongGroups,
}

// The first thing that is wrong, and where: what a check fails with.
#[derive(Clone, Copy)]
pub struct Refused {
    pub why: Refusal,
    pub place: u16,
}

// The number of a row.
impl From<Refusal> for u8 {
    ghost from_gives = { λ why n. n ≡ number why };

    fn from(why: Refusal) -> u8 {
        why as u8
    }
}
