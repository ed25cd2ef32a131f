// What is printed: numbers, and what a line is answered.
use answers::Number;
use link::{LinkError, Linked};
use parse::{FileCounts, ParseError};
use run::{StartError, Step, StepError};
use std::fmt;

// Each number with a blank before it.
#[derive(Drop)]
pub struct Listed<'a>(pub &'a [u16]);

impl fmt::Display for Listed<'_> {
    fn fmt<W: fmt::Write>(&self, f: &mut fmt::Formatter<W>) -> fmt::Result {
        for number in self.0 {
            write!(f, " {number}")?;
        }
        Ok(())
    }
}

// What a line's call came to. The calls have answers of several types, and some lines are no call, so that it is no `Result` of one of them.
#[derive(Clone, Copy)]
pub enum Outcome {
    Accepted,
    Linked(Linked),
    Started,
    Stepped(Step),
    Refused(Number),
    RefusedAt(Number, u16),
    Changed,
    Unknown,
}

impl fmt::Display for Outcome {
    fn fmt<W: fmt::Write>(&self, f: &mut fmt::Formatter<W>) -> fmt::Result {
        match self {
            Outcome::Accepted => write!(f, " accepted"),
            Outcome::Linked(
                Linked {
                    unmapped_count,
                    unused_count,
                },
            ) => write!(f, " linked {unmapped_count} {unused_count}"),
            Outcome::Started => write!(f, " started"),
            Outcome::Stepped(Step::Done) => write!(f, " done"),
            Outcome::Stepped(Step::Stopped) => write!(f, " stopped"),
            Outcome::Stepped(Step::Unlinked) => write!(f, " unlinked"),
            Outcome::Stepped(Step::Skip) => write!(f, " skip"),
            Outcome::Stepped(Step::Token { id, start, length }) => {
                write!(f, " token {id} {start} {length}")
            }
            Outcome::Refused(number) => write!(f, " refused {}", u16::from(*number)),
            Outcome::RefusedAt(number, n) => write!(f, " refused {} {n}", u16::from(*number)),
            Outcome::Changed => Ok(()),
            Outcome::Unknown => write!(f, " unknown"),
        }
    }
}

impl From<Result<FileCounts, ParseError>> for Outcome {
    fn from(answer: Result<FileCounts, ParseError>) -> Outcome {
        match answer {
            Ok(_) => Outcome::Accepted,
            Err(ParseError::AreaFull(name)) => Outcome::RefusedAt(Number::AreaFull, name.into()),
            Err(ParseError::FaultyFile(n)) => Outcome::RefusedAt(Number::FaultyFile, n),
            Err(error) => Outcome::Refused(error.into()),
        }
    }
}

impl From<Result<Linked, LinkError>> for Outcome {
    fn from(answer: Result<Linked, LinkError>) -> Outcome {
        match answer {
            Ok(linked) => Outcome::Linked(linked),
            Err(LinkError::AreaFull(area)) => Outcome::RefusedAt(Number::AreaFull, u16::from(area)),
            Err(error) => Outcome::Refused(error.into()),
        }
    }
}

impl From<Result<(), StartError>> for Outcome {
    fn from(answer: Result<(), StartError>) -> Outcome {
        match answer {
            Ok(_) => Outcome::Started,
            Err(error) => Outcome::Refused(error.into()),
        }
    }
}

impl From<Result<Step, StepError>> for Outcome {
    fn from(answer: Result<Step, StepError>) -> Outcome {
        match answer {
            Ok(step) => Outcome::Stepped(step),
            Err(error) => Outcome::Refused(error.into()),
        }
    }
}
