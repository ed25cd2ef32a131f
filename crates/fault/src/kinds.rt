// The kinds of faults (01, Areas, 6).
ghost use Rattle.std.specs.Prelude.{◌≡◌};
ghost use Rattle.fault.specs.Kinds.{kind_number, error_at};

// In the order of their numbers, from 0 on, which the host reads in a record's field.
#[derive(Clone, Copy, PartialEq, Eq, Debug)]
pub enum LexErrorKind {
    PrematureEnd,
    RoutinesNotSupported,
    UnknownDeclaration,
    MissingSpace,
    InvalidName,
    UnknownStartState,
    DuplicateStartState,
    InvalidStartState,
    InvalidStartStateName,
    DuplicateName,
    RegexError,
    VerbatimNotSupported,
}

impl From<LexErrorKind> for u16 {
    ghost from_gives = { λ kind number. number ≡ kind_number kind };

    fn from(kind: LexErrorKind) -> u16 {
        kind as u16
    }
}

// A fault that ends the parse: its kind, and where it stands.
#[derive(Clone, Copy, PartialEq, Eq, Debug)]
pub struct LexError {
    pub kind: LexErrorKind,
    pub at: u16,
}

impl LexErrorKind {
    pub fn at(self, at: u16) -> LexError
        ensures { result ≡ error_at self at }
    {
        LexError { kind: self, at }
    }
}
