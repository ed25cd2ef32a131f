// The rules of a lex file (01, Rules).
#![tactic(auto)]

pub mod bodies; // what a pattern is
pub mod entries; // the list of states in front of a pattern
pub mod headings; // what stands behind the last blank of a line
pub mod record; // the record of a rule

pub use area::StartStateOperation;
use fault::Span;

// What a rule does with the stack of states, and with which of them.
#[derive(Clone, Copy)]
pub struct TargetState {
    pub id: u16,
    pub operation: StartStateOperation,
}

// The target of a rule that has one, and the place behind it; without a target the place behind the blank.
#[derive(Clone, Copy)]
pub struct Target {
    pub state: Option<TargetState>,
    pub end: usize,
}

// What a rule's name part is. An enum of its own: without a name nothing is wrong, and none of the three has a value.
#[derive(Clone, Copy, PartialEq, Eq, Debug)]
pub enum Label {
    Unnamed,
    Named,
    Misnamed,
}

// Where a rule's name stands, without its quotes.
#[derive(Clone, Copy, Default)]
pub struct Name {
    pub from: u16,
    pub length: u16,
}

// What stands behind a rule's last blank.
#[derive(Clone, Copy)]
pub struct Head {
    pub name: Option<Name>,
    pub name_span: Span,
    pub target_state: Option<TargetState>,
}

// What a rule's line says but for its pattern: a name that a rule has already (the span of the first, its own); or the place of the last blank and
// what stands behind it. Neither ends the parse, so it is no Result.
#[derive(Clone, Copy)]
pub enum Heading {
    Repeated(Span, Span),
    Fresh(usize, Head),
}

// A pattern: a list of states that is not closed, one that is closed at a place, text to rewrite, or text as it stands.
#[derive(Clone, Copy, PartialEq, Eq, Debug)]
pub enum Body {
    Unclosed,
    Listed(usize),
    Rewritten,
    Plain,
}
