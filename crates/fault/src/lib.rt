// The fault area: a fault appended, and the span of a repeated name inserted behind the last span of its fault (01, Areas, 6).
// A `kind` that is a number is a field of a record: it is compared or written, and chooses no step.
#![tactic(auto)]

mod kinds; // the kinds of faults, and a fault of a kind

ghost use Rattle.std.specs.Prelude.{◌≡◌, ◌≤◌, ◌<◌, length};
ghost use Rattle.characters.specs.Walk.{Between, Below};
ghost use Rattle.area.specs.Phrases.{before, after};
ghost use Rattle.fault.specs.Kinds.{kind_number};
ghost use Rattle.fault.specs.Faults.{Numbered, HeldFaults, GrowsFaults};
ghost use Rattle.fault.specs.Faults.{fault, next_number, add_fault, starts_fault, is_fault, find_fault, fault_end, add_span, add_pair, add_repeat};

pub use crate::kinds::{LexError, LexErrorKind};
use area::list::Records;
use area::{AreaFull, AreaName, Fault, Rule, State, has_room, insert, push};
use characters::walk::find_last;

// What ends a parse, as the error of a step's Result: a fault, or an area that is full.
// A step's Ok has the place behind what is read, as the definition's `Out` has, also where callers drop it: by `()` a contract would have to name it.
#[derive(Clone, Copy, PartialEq, Eq, Debug)]
pub enum Stop {
    Fault(LexError),
    Full(AreaName),
}

impl From<LexError> for Stop {
    ghost use Rattle.fault.specs.declared.Stop.TheVariants.{Fault};

    ghost from_gives = { λ error stop. stop ≡ Fault error };

    fn from(error: LexError) -> Stop {
        Stop::Fault(error)
    }
}

impl From<AreaFull> for Stop {
    ghost use Rattle.fault.specs.declared.Stop.TheVariants.{Full};

    ghost from_gives = { λ full stop. stop ≡ Full full.0 };

    fn from(full: AreaFull) -> Stop {
        Stop::Full(full.0)
    }
}

// Where a name stands in the source.
#[derive(Clone, Copy, PartialEq, Eq, Debug)]
pub struct Span {
    pub start: u16,
    pub end: u16,
}

// Where the name of a state stands, and that of a rule; and the span of a fault. Each names fields of its own.
impl From<State> for Span {
    ghost from_gives = { λ state span. span ≡ record { start = state.start; end = state.end } };

    fn from(state: State) -> Span {
        Span {
            start: state.start,
            end: state.end,
        }
    }
}

impl From<Rule> for Span {
    ghost from_gives = { λ rule span. span ≡ record { start = rule.span_start; end = rule.span_end } };

    fn from(rule: Rule) -> Span {
        Span {
            start: rule.span_start,
            end: rule.span_end,
        }
    }
}

impl From<Fault> for Span {
    ghost from_gives = { λ fault span. span ≡ record { start = fault.start; end = fault.end } };

    fn from(fault: Fault) -> Span {
        Span {
            start: fault.start,
            end: fault.end,
        }
    }
}

// A span of the fault of a number.
fn fault_of(number: u16, kind: u16, span: Span) -> Fault
    ensures { result ≡ fault number kind span.start span.end }
{
    Fault {
        number,
        kind,
        start: span.start,
        end: span.end,
    }
}

// The number of the next fault: one above that of the last span.
#[tactic(auto, using(crate::proofs::Spans::number_fits), unfolding(crate::specs::Faults::next_number))]
fn next_number(spans: &Records<Fault>) -> u16
    requires few { length spans.now ≤ 65535 }
    requires numbered { Numbered spans.now }
    ensures { result ≡ next_number spans.now }
{
    let count = spans.count();
    if count == 0 {
        return 0;
    }
    let last = spans.get(count - 1);
    last.number + 1
}

// A fault of one span behind the others, of the kind of a number, which may be any. The area that is lent stays beside its count: in a struct of both
// there would be a parameter less and, at each function, a promise more that the same bytes are lent.
pub fn add_fault_by_number(area: &mut [u8], n: u16, kind: u16, span: Span) -> Result<u16, AreaFull>
    requires { HeldFaults area.old n }
    ensures { GrowsFaults (add_fault (length area.old) kind span.start span.end) area.old n result area.new }
{
    let number = next_number(&Records::new(area, n));
    push(area, n, fault_of(number, kind, span))
}

// The same of a kind.
pub fn add_fault(area: &mut [u8], n: u16, kind: LexErrorKind, span: Span) -> Result<u16, AreaFull>
    requires { HeldFaults area.old n }
    ensures { GrowsFaults (add_fault (length area.old) (kind_number kind) span.start span.end) area.old n result area.new }
{
    add_fault_by_number(area, n, u16::from(kind), span)
}

// Whether the span j is the first of its fault.
#[tactic(auto, unfolding(crate::specs::Faults::starts_fault))]
fn starts_fault(spans: &Records<Fault>, j: usize) -> bool
    requires { j < length spans.now }
    ensures { result ≡ starts_fault spans.now j }
{
    if j == 0 {
        return true;
    }
    let before = spans.get(j - 1);
    let here = spans.get(j);
    before.number != here.number
}

// Whether the span j is `first`, and starts a fault of the kind.
#[tactic(auto, unfolding(crate::specs::Faults::is_fault))]
fn is_fault(spans: &Records<Fault>, kind: u16, first: Span, j: usize) -> bool
    requires { j < length spans.now }
    ensures { result ≡ is_fault spans.now kind first.start first.end j }
{
    let x = spans.get(j);
    let starts = starts_fault(spans, j);
    (x.kind == kind) & ((Span::from(x) == first) & starts)
}

// The fault of the kind whose first span is `first`, by the number of that span.
fn find_fault(spans: &Records<Fault>, kind: u16, first: Span) -> Option<usize>
    ensures { Below (length spans.now) (find_fault spans.now kind first.start first.end) result }
{
    spans.position(|j, _| is_fault(spans, kind, first, j))
}

// Behind the last span of the fault of a number. From the end, since a fault that grows is mostly the last one.
fn fault_end(spans: &Records<Fault>, number: u16) -> usize
    ensures { Between 0 (length spans.now) (fault_end spans.now number) result }
{
    match find_last(0, spans.count(), |k| spans.get(k).number == number) {
        Some(k) => k + 1,
        None => 0,
    }
}

// A span more of the fault that the span j starts, after its last one.
#[tactic(auto, using(crate::proofs::Spans::inserting))]
fn add_span(area: &mut [u8], n: u16, j: usize, second: Span) -> Result<u16, AreaFull>
    requires held_faults { HeldFaults area.old n }
    requires j_lt_n { j < n }
    ensures { GrowsFaults (add_span (length area.old) j second.start second.end) area.old n result area.new }
{
    let count = n as usize;
    if has_room::<Fault>(area.len(), count, 1) {
        let spans = Records::<Fault>::new(area, n);
        let x = spans.get(j);
        let p = fault_end(&spans, x.number);
        insert(area, p, count, fault_of(x.number, x.kind, second));
        return Ok(n + 1);
    }
    Err(AreaFull(AreaName::Faults))
}

// A fault of two spans behind the others: that of the name at first, and that of its first repeat. Both fit, or none is written.
fn add_pair(area: &mut [u8], n: u16, kind: u16, first: Span, second: Span) -> Result<u16, AreaFull>
    requires { HeldFaults area.old n }
    ensures { GrowsFaults (add_pair (length area.old) kind first.start first.end second.start second.end)
        area.old n result area.new }
{
    let count = n as usize;
    if has_room::<Fault>(area.len(), count, 2) {
        let number = next_number(&Records::new(area, n));
        let m = push(area, n, fault_of(number, kind, first))?;
        return push(area, m, fault_of(number, kind, second));
    }
    Err(AreaFull(AreaName::Faults))
}

// The name at `first` is repeated at `second`: a span more of its fault, or a new fault of both spans. The kind is that of a number, which may be any.
#[tactic(auto, using(crate::proofs::Spans::repeat_within))]
pub fn add_duplicate_occurrence_by_number(
    area: &mut [u8],
    n: u16,
    kind: u16,
    first: Span,
    second: Span,
) -> Result<u16, AreaFull>
    requires { HeldFaults area.old n }
    ensures { GrowsFaults (add_repeat (length area.old) kind first.start first.end second.start second.end)
        area.old n result area.new }
{
    match find_fault(&Records::new(area, n), kind, first) {
        Some(j) => add_span(area, n, j, second),
        None => add_pair(area, n, kind, first, second),
    }
}

// The same of a kind.
pub fn add_duplicate_occurrence(
    area: &mut [u8],
    n: u16,
    kind: LexErrorKind,
    first: Span,
    second: Span,
) -> Result<u16, AreaFull>
    requires { HeldFaults area.old n }
    ensures { GrowsFaults (add_repeat (length area.old) (kind_number kind) first.start first.end second.start second.end)
        area.old n result area.new }
{
    add_duplicate_occurrence_by_number(area, n, u16::from(kind), first, second)
}
