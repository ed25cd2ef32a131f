// A run of the lexer that a sheet describes: the start call and the step call (01, The run; 02, 2/13 and 3/13).
#![tactic(auto)]

ghost use Rattle.std.specs.Prelude.{◌≡◌, Err};
ghost use Rattle.answers.specs.Numbers.{number_of};
ghost use Rattle.answers.specs.Words.{fields};
ghost use Rattle.run.specs.Run.{limit, start_fields, step_fields};

mod fit; // whether a run fits
mod moves; // what the winner does
pub mod call; // the calls

use answers::Number;

// The most bytes of an entry by the kind of its caller: 0 is a seller, 1 a kiosk, and no other number is a kind.
#[tactic(auto, unfolding(crate::specs::Run::limit))]
fn limit(kind: u64) -> Option<u16>
    ensures { result ≡ limit kind }
{
    match kind {
        0 => Some(4096),
        1 => Some(512),
        _ => None,
    }
}

// A run's numbers: the bytes of the entry, those behind it, the entries of the stack in use, the moves so far, and the kind of caller. For C they
// are five two-byte numbers in this order. The stack stays beside it, as C lends it: in a struct with it each function would promise that the same
// bytes are lent.
#[repr(C)]
#[derive(Clone, Copy, PartialEq, Eq, Debug, Default)]
pub struct Run {
    pub n: u16,
    pub position: u16,
    pub depth: u16,
    pub moves: u16,
    pub kind: u16,
}

// What a step is given beside the sheet and the run: the entry's text, and the row, two bytes for the length of each rule.
#[derive(Clone, Copy)]
pub struct LentInput<'a> {
    pub text: &'a [u8],
    pub row: &'a [u8],
}

// What the start call refuses: number 8 of 01, and 12 and 13 of 02.
#[derive(Clone, Copy, PartialEq, Eq, Debug)]
pub enum StartError {
    UnknownCaller,
    StartRefused,
    TextMismatch,
}

impl From<StartError> for Number {
    ghost from_gives = { λ error number. fields (number_of number) 0 0 0 ≡ start_fields (Err error) };

    #[tactic(auto, unfolding(crate::specs::Run::start_fields))]
    fn from(error: StartError) -> Number {
        match error {
            StartError::UnknownCaller => Number::UnknownCaller,
            StartError::StartRefused => Number::StartRefused,
            StartError::TextMismatch => Number::TextMismatch,
        }
    }
}

// What the step call refuses: numbers 6, 9 and 10 of 01, and 12 of 02. An enum of its own, for an error of several kinds is no `Option`.
#[derive(Clone, Copy, PartialEq, Eq, Debug)]
pub enum StepError {
    BrokenSheet,
    TextMismatch,
    BrokenRun,
    RowMismatch,
}

// Each error names cases of its own, so that each crate has its own list.
impl From<StepError> for Number {
    ghost from_gives = { λ error number. fields (number_of number) 0 0 0 ≡ step_fields (Err error) };

    #[tactic(auto, unfolding(crate::specs::Run::view, crate::specs::Run::view_fields))]
    fn from(error: StepError) -> Number {
        match error {
            StepError::BrokenSheet => Number::BrokenSheet,
            StepError::TextMismatch => Number::TextMismatch,
            StepError::BrokenRun => Number::BrokenRun,
            StepError::RowMismatch => Number::RowMismatch,
        }
    }
}

// What a step answers that is not refused: five kinds, of which one alone has values, and each has its number in the word.
#[derive(Clone, Copy, PartialEq, Eq, Debug)]
pub enum Step {
    Done,
    Stopped,
    Unlinked,
    Skip,
    Token { id: u16, start: u16, length: u16 },
}

// An answer of a call, and the run's numbers after it.
#[derive(Clone, Copy)]
pub struct After<A> {
    pub answer: A,
    pub run: Run,
}

impl<A> After<A> {
    // The same run, beside what is made of the answer.
    pub fn map<B, F: FnOnce(A) -> B>(self, make: F) -> After<B>
        requires { F.pre make self.answer }
        ensures answer { F.post make self.answer result.answer }
        ensures run { result.run ≡ self.run }
    {
        After {
            answer: make(self.answer),
            run: self.run,
        }
    }
}

impl Run {
    // This run, beside an answer.
    pub fn after<A>(self, answer: A) -> After<A>
        ensures answer { result.answer ≡ answer }
        ensures run { result.run ≡ self }
    {
        After { answer, run: self }
    }
}
