// Each call's answer as one word: its number, then its values (01, Numbers given at the counter).
#![tactic(auto)]

ghost use Rattle.std.specs.Prelude.{◌≡◌};
ghost use Rattle.answers.specs.Numbers.{number_of};
ghost use Rattle.answers.specs.Words.{fields, word};
ghost use Rattle.parse.specs.Parse.{parse_word};
ghost use Rattle.parse.specs.Answers.{answered};
ghost use Rattle.sheet_check.specs.Pattern.{pattern_word};
ghost use Rattle.link.specs.Link.{link_word};
ghost use Rattle.run.specs.Run.{start_word, step_word};
ghost use Rattle.lines.specs.Lines.{refusal_fields, line_column_word, offset_word};
ghost use Rattle.lines.specs.Places.{SmallOffset};

use answers::Number;
use area::RuleText;
use lines::{Byte, Place, PlaceError};
use link::{LinkError, Linked};
use parse::{FileCounts, ParseError};
use run::{StartError, Step, StepError};

// The number in the low 16 bits, and the three values above it, by multiplication as the definition has them. The number may be any; those of the
// calls' answers are a `Number`.
pub fn numbered_word(number: u16, a: u16, b: u16, c: u16) -> u64
    ensures { result ≡ word (fields number a b c) }
{
    (number as u64) + 65536 * (a as u64) + 4294967296 * (b as u64) + 281474976710656 * (c as u64)
}

// An answer as one word.
#[derive(Clone, Copy, PartialEq, Eq, Debug)]
pub struct Word(pub u64);

impl Word {
    // The number of an answer, and three values.
    pub fn new(number: Number, a: u16, b: u16, c: u16) -> Word
        ensures { result.0 ≡ word (fields (number_of number) a b c) }
    {
        Word(numbered_word(u16::from(number), a, b, c))
    }

    // A number without values.
    pub fn of(number: Number) -> Word
        ensures { result.0 ≡ word (fields (number_of number) 0 0 0) }
    {
        Word::new(number, 0, 0, 0)
    }
}

// The word of a parse's answer.
impl From<Result<FileCounts, ParseError>> for Word {
    ghost from_gives = { λ answer word. word.0 ≡ parse_word (answered answer) };

    #[tactic(auto, unfolding(parse::specs::Parse::parse_fields))]
    fn from(answer: Result<FileCounts, ParseError>) -> Word {
        match answer {
            Ok(_) => Word::of(Number::Accepted),
            Err(ParseError::AreaFull(name)) => Word::new(Number::AreaFull, name.into(), 0, 0),
            Err(ParseError::FaultyFile(n)) => Word::new(Number::FaultyFile, n, 0, 0),
            Err(error) => Word::of(error.into()),
        }
    }
}

// That of where a pattern stands.
impl From<Option<RuleText>> for Word {
    ghost from_gives = { λ part word. word.0 ≡ pattern_word part };

    #[tactic(auto, unfolding(sheet_check::specs::Pattern::pattern_fields))]
    fn from(part: Option<RuleText>) -> Word {
        match part {
            Some(x) => Word::new(Number::Accepted, x.place, x.from, x.length),
            None => Word::of(Number::BrokenSheet),
        }
    }
}

// That of a link's answer.
impl From<Result<Linked, LinkError>> for Word {
    ghost from_gives = { λ answer word. word.0 ≡ link_word answer };

    #[tactic(auto, unfolding(link::specs::Link::link_fields))]
    fn from(answer: Result<Linked, LinkError>) -> Word {
        match answer {
            Ok(linked) => Word::new(
                Number::Accepted,
                linked.unmapped_count,
                linked.unused_count,
                0,
            ),
            Err(LinkError::AreaFull(area)) => Word::new(Number::AreaFull, u16::from(area), 0, 0),
            Err(error) => Word::of(error.into()),
        }
    }
}

// That of a start's answer.
impl From<Result<(), StartError>> for Word {
    ghost from_gives = { λ answer word. word.0 ≡ start_word answer };

    #[tactic(auto, unfolding(run::specs::Run::start_fields))]
    fn from(answer: Result<(), StartError>) -> Word {
        match answer {
            Ok(_) => Word::of(Number::Accepted),
            Err(refused) => Word::of(refused.into()),
        }
    }
}

// That of a step's answer.
impl From<Result<Step, StepError>> for Word {
    ghost from_gives = { λ answer word. word.0 ≡ step_word answer };

    #[tactic(auto, unfolding(run::specs::Run::view, run::specs::Run::view_fields))]
    fn from(answer: Result<Step, StepError>) -> Word {
        match answer {
            Ok(Step::Done) => Word::of(Number::Done),
            Ok(Step::Stopped) => Word::of(Number::Stopped),
            Ok(Step::Unlinked) => Word::of(Number::Unlinked),
            Ok(Step::Skip) => Word::of(Number::Skip),
            Ok(Step::Token { id, start, length }) => Word::new(Number::Token, id, start, length),
            Err(error) => Word::of(error.into()),
        }
    }
}

// That of a source or a place that is refused.
impl From<PlaceError> for Word {
    ghost from_gives = { λ error refused. refused.0 ≡ word (refusal_fields error) };

    #[tactic(auto, unfolding(lines::specs::Lines::refusal_number))]
    fn from(error: PlaceError) -> Word {
        Word::of(error.into())
    }
}

// That of the line and column of an offset, which do not fit it.
impl From<Result<Place, PlaceError>> for Word {
    ghost from_gives = { λ answer word. word.0 ≡ line_column_word answer };

    #[tactic(auto, unfolding(lines::specs::Lines::line_column_fields))]
    fn from(answer: Result<Place, PlaceError>) -> Word {
        match answer {
            Ok(_) => Word::of(Number::Accepted),
            Err(error) => Word::from(error),
        }
    }
}

// That of the offset of a line and column. A `From` asks nothing of its callers, and this needs an offset of two bytes.
#[tactic(auto, unfolding(lines::specs::Lines::offset_fields))]
pub fn offset_word(answer: Result<Byte, PlaceError>) -> Word
    requires { SmallOffset answer }
    ensures { result.0 ≡ offset_word answer }
{
    match answer {
        Ok(byte) => Word::new(Number::Accepted, byte.0 as u16, 0, 0),
        Err(error) => Word::from(error),
    }
}
