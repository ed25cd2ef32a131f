// The line and column of an offset, and back (02, 1/13). The units are those of NewlineCache, each a type of its own, so that none is taken for
// another.
#![tactic(auto)]

pub mod call; // the two calls
mod counts; // what is counted in a block
mod places; // from offset to place
mod search; // from place to offset

ghost use Rattle.std.specs.Prelude.{◌≡◌};
ghost use Rattle.answers.specs.Numbers.{number_of};
ghost use Rattle.lines.specs.Lines.{refusal_number};

use answers::Number;

// A byte offset.
#[derive(Clone, Copy, PartialEq, Eq, PartialOrd, Ord, Debug)]
pub struct Byte(pub usize);

// The byte offset of a line's start.
#[derive(Clone, Copy, PartialEq, Eq, PartialOrd, Ord, Debug)]
pub struct LineByte(pub usize);

// A line's number, from 1.
#[derive(Clone, Copy, PartialEq, Eq, PartialOrd, Ord, Debug)]
pub struct LineNum(pub u64);

// A column's number, from 1, in characters.
#[derive(Clone, Copy, PartialEq, Eq, PartialOrd, Ord, Debug)]
pub struct ColNum(pub u64);

// A line and a column, ordered as they stand in a text.
#[derive(Clone, Copy, PartialEq, Eq, PartialOrd, Ord, Debug)]
pub struct Place {
    pub line_num: LineNum,
    pub col_num: ColNum,
}

// Why no place, or no offset, is answered. Each reason has a number of its own for the caller, which None would not tell.
#[derive(Clone, Copy, PartialEq, Eq, Debug)]
pub enum PlaceError {
    LongFile,
    InvalidUtf8,
    NoSuchPlace,
}

// Each error names cases of its own, so that each crate has its own list.
impl From<PlaceError> for Number {
    ghost from_gives = { λ error number. number_of number ≡ refusal_number error };

    #[tactic(auto, unfolding(crate::specs::Lines::refusal_number))]
    fn from(error: PlaceError) -> Number {
        match error {
            PlaceError::LongFile => Number::LongFile,
            PlaceError::InvalidUtf8 => Number::InvalidUtf8,
            PlaceError::NoSuchPlace => Number::NoSuchPlace,
        }
    }
}
