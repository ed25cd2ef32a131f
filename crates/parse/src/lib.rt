// The parse of a lex file (01, Numbers given at the counter, Declarations and Rules).
#![tactic(auto)]

mod sections; // the file from its start
pub mod call; // the parse call

ghost use Rattle.std.specs.Prelude.{◌≡◌, Err};
ghost use Rattle.answers.specs.Numbers.{number_of};
ghost use Rattle.parse.specs.Answers.{counts_left, has_faults};
ghost use Rattle.parse.specs.Parse.{parse_fields};

use answers::Number;
use area::AreaName;

// How many records each area has where there are no faults.
#[derive(Clone, Copy)]
pub struct FileCounts {
    pub states: u16,
    pub rules: u16,
    pub entries: u16,
    pub text: u16,
    pub expected: u16,
}

// Why a file is refused; with the area that was full, and with how many fault spans it has.
#[derive(Clone, Copy, PartialEq, Eq, Debug)]
pub enum ParseError {
    LongFile,
    UnknownFlag,
    InvalidUtf8,
    AreaFull(AreaName),
    FaultyFile(u16),
}

// The six counts as C has them, zeros where the file is refused.
pub fn counts_left(answer: Result<FileCounts, ParseError>) -> [u16; 6]
    ensures { result ≡ counts_left answer }
{
    match answer {
        Ok(q) => [q.states, q.rules, q.entries, q.text, q.expected, 0],
        Err(_) => [0; 6],
    }
}

impl ParseError {
    // Whether the fault area keeps the faults.
    fn has_faults(self) -> bool
        ensures { result ≡ has_faults self }
    {
        matches!(self, ParseError::FaultyFile(_))
    }
}

// Its number alone: the values of two of them stand beside it.
impl From<ParseError> for Number {
    ghost from_gives = { λ error number. number_of number ≡ (parse_fields (Err error)).number };

    #[tactic(auto, unfolding(crate::specs::Parse::parse_fields))]
    fn from(error: ParseError) -> Number {
        match error {
            ParseError::LongFile => Number::LongFile,
            ParseError::UnknownFlag => Number::UnknownFlag,
            ParseError::InvalidUtf8 => Number::InvalidUtf8,
            ParseError::AreaFull(_) => Number::AreaFull,
            ParseError::FaultyFile(_) => Number::FaultyFile,
        }
    }
}
