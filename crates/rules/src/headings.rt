// A rule's line but for its pattern: the last blank, and behind it the target and the name (01, Rules). A target goes by places of the
// source, and what stands behind the target is a `Span`, as in the definitions.
ghost use Rattle.std.specs.Prelude.{◌≡◌, ◌+◌, ◌≤◌, ◌<◌, length};
ghost use Rattle.rules.specs.Heading.{operation_of, mark_length, target_of, label_of, head_unnamed, head_named};
ghost use Rattle.rules.specs.Heading.{heading_named, heading_behind, heading_of};

use crate::{Head, Heading, Label, Name, StartStateOperation, Target, TargetState};
use area::State;
use area::list::Records;
use characters::whitespace::byte_at;
use fault::{LexError, LexErrorKind, Span};
use names::{NamedRules, get_start_state_by_name};
use section::LexFile;
use section::reader::FileLine;
use text::range::part;
use text::scan::{find_byte, last_blank};

// ---- the target, behind the blank at r of a line

#[tactic(auto, unfolding(crate::specs::Heading::operation_of))]
fn parse_start_state_ops(x: u8) -> StartStateOperation
    ensures { result ≡ operation_of x }
{
    match x {
        b'+' => StartStateOperation::Push,
        b'-' => StartStateOperation::Pop,
        _ => StartStateOperation::ReplaceStack,
    }
}

// How many bytes stand for an operation in a target.
fn mark_len(operation: StartStateOperation) -> usize
    ensures is { result ≡ mark_length operation }
    ensures small { result ≤ 1 }
{
    match operation {
        StartStateOperation::ReplaceStack => 0,
        StartStateOperation::Push => 1,
        StartStateOperation::Pop => 1,
    }
}

// The target behind the blank at r. Its state's name starts behind the `<`, or behind the `+` or `-` that follows.
#[tactic(auto, unfolding(crate::proofs::Targets::targets))]
fn target_of(at: FileLine, r: usize, states: &Records<State>) -> Result<Target, LexError>
    requires { r < at.line.end }
    ensures { result ≡ target_of at.entry.file.source.now r at.entry.line.end states.now }
{
    let FileLine { file, line } = at;
    if byte_at(file.source, r + 1) != b'<' {
        return Ok(Target {
            state: None,
            end: r + 1,
        });
    }
    let g = find_byte(file.source, r + 1, line.end, b'>');
    if line.end <= g {
        return Err(LexErrorKind::InvalidStartState.at(r as u16));
    }
    let operation = parse_start_state_ops(byte_at(file.source, r + 2));
    let from = r + 2 + mark_len(operation);
    let Some(j) = get_start_state_by_name(file.source, from, g, states) else {
        return Err(LexErrorKind::UnknownStartState.at((r + 1) as u16));
    };
    let id = states.number(j);
    Ok(Target {
        state: Some(TargetState { id, operation }),
        end: g + 1,
    })
}

// ---- the name

// What stands at q.
#[tactic(auto, using(crate::proofs::Heads::labeling))]
fn label_of(src: &[u8], q: Span) -> Label
    requires { (q.start ≤ q.end) × (q.end ≤ length src.now) }
    ensures { result ≡ label_of src.now q }
{
    match part(src, q.start as usize, q.end as usize) {
        [b';'] | [b'"', b'"'] | [b'\'', b'\''] => Label::Unnamed,
        [b'"', .., b'"'] | [b'\'', .., b'\''] => Label::Named,
        _ => Label::Misnamed,
    }
}

// ---- the heading

// What stands behind a rule's pattern, before its name is read: the last blank, the target's state, and where the name part is.
#[derive(Clone, Copy)]
struct NamePart {
    blank: usize,
    target_state: Option<TargetState>,
    span: Span,
    ghost behind: { (blank < span.start) × (span.start ≤ span.end) },
}

fn head_unnamed(part: NamePart) -> Head
    ensures { result ≡ head_unnamed part.blank part.target_state }
{
    let at = (part.blank + 1) as u16;
    Head {
        name: None,
        name_span: Span { start: at, end: at },
        target_state: part.target_state,
    }
}

// The name part is the name with its quotes.
fn head_named(part: NamePart) -> Head
    requires { part.span.start + 2 < part.span.end }
    ensures { result ≡ head_named part.blank part.span part.target_state }
{
    let size = part.span.end - part.span.start;
    Head {
        name: Some(Name {
            from: part.span.start + 1,
            length: size - 2,
        }),
        name_span: Span {
            start: part.blank as u16 + 2,
            end: part.blank as u16 + size,
        },
        target_state: part.target_state,
    }
}

// The name part is a quoted name: a rule has it already, or none.
#[tactic(auto, unfolding(crate::specs::Heading::heading_named, crate::specs::Heading::rule_named))]
fn heading_named(part: NamePart, rules: &NamedRules) -> Heading
    requires { part.span.start + 2 < part.span.end }
    ensures { result ≡ heading_named rules.now.source.now part.blank part.target_state part.span rules.now.rules }
{
    let h = head_named(part);
    let Some(j) = rules.find((part.span.start + 1) as usize, (part.span.end - 1) as usize) else {
        return Heading::Fresh(part.blank, h);
    };
    Heading::Repeated(rules.get(j).into(), h.name_span)
}

// What the name part says.
#[tactic(auto, using(crate::proofs::Heads::heading), unfolding(crate::specs::Heading::heading_behind))]
fn heading_behind(file: LexFile, part: NamePart, rules: &NamedRules) -> Result<Heading, LexError>
    requires inside { part.span.end ≤ length file.source.now }
    requires source { rules.now.source.now ≡ file.source.now }
    ensures { result ≡ heading_behind file.entry.source.now part.blank part.target_state part.span rules.now.rules }
{
    match label_of(file.source, part.span) {
        Label::Unnamed => Ok(Heading::Fresh(part.blank, head_unnamed(part))),
        Label::Named => Ok(heading_named(part, rules)),
        Label::Misnamed => Err(LexErrorKind::InvalidName.at((part.blank + 1) as u16)),
    }
}

// The line, trimmed at its end. The last blank splits pattern from name.
#[tactic(auto, using(crate::proofs::Heads::heading), unfolding(crate::specs::Heading::heading_of))]
pub fn heading_of(
    at: FileLine,
    states: &Records<State>,
    rules: &NamedRules,
) -> Result<Heading, LexError>
    requires source { rules.now.source.now ≡ at.file.source.now }
    ensures { result ≡ heading_of at.entry.file.source.now at.entry.line.start at.entry.line.end states.now rules.now.rules }
{
    let FileLine { file, line } = at;
    let Some(r) = last_blank(file.source, line.start, line.end) else {
        return Err(LexErrorKind::MissingSpace.at(line.start as u16));
    };
    let target = target_of(at, r, states)?;
    let part = NamePart {
        blank: r,
        target_state: target.state,
        span: Span {
            start: target.end as u16,
            end: line.end as u16,
        },
    };
    heading_behind(file, part, rules)
}
