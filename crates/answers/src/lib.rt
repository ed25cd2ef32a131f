// The number of each answer of the calls (01, Numbers given at the counter).
#![tactic(auto)]

ghost use Rattle.std.specs.Prelude.{◌≡◌};
ghost use Rattle.answers.specs.Numbers.{number_of};

// The most bytes of a file.
pub const MOST_SOURCE: usize = 65535;

// Accepted and the refusals, then the answers of a step, from 256 on.
#[derive(Clone, Copy, PartialEq, Eq, Debug)]
pub enum Number {
    Accepted = 0,
    LongFile = 1,
    UnknownFlag = 2,
    InvalidUtf8 = 3,
    AreaFull = 4,
    FaultyFile = 5,
    BrokenSheet = 6,
    BrokenMap = 7,
    StartRefused = 8,
    BrokenRun = 9,
    RowMismatch = 10,
    NoSuchPlace = 11,
    TextMismatch = 12,
    UnknownCaller = 13,
    Done = 256,
    Stopped = 257,
    Unlinked = 258,
    Skip = 259,
    Token = 260,
}

impl From<Number> for u16 {
    ghost from_gives = { λ number value. value ≡ number_of number };

    fn from(number: Number) -> u16 {
        number as u16
    }
}
