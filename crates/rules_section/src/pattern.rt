// The pattern of a rule and the rule's record: a list of states, text to rewrite, or text as it stands (01, Rules).
ghost use Rattle.std.specs.Prelude.{◌≡◌, ◌-◌, ◌≤◌, length};
ghost use Rattle.section.specs.Request.{asked_by};
ghost use Rattle.rules.specs.Heading.{named_field, name_fields, operation_field, target_field};
ghost use Rattle.rules_section.specs.RulesSection.{source_text, rule_of, pattern};
ghost use Rattle.rules_section.specs.Areas.{SameAreas, SameFaults, SheetHeld};
ghost use Rattle.rules_section.specs.Phrases.{DoesSheet};

use crate::areas::RuleAreas;
use area::list::Records;
use area::{Rule, RuleText, State};
use escape::unescape;
use fault::{LexErrorKind, Stop};
use rules::bodies::body_of;
use rules::entries::parse_start_states;
use rules::record::record_rule;
use rules::{Body, Head, Name, TargetState};
use section::reader::FileLine;

// Where a rule's list of states stands among the entries.
#[derive(Clone, Copy)]
pub struct StateList {
    pub from: u16,
    pub count: u16,
}

// ---- the rule's fields

fn named_field(name: Option<Name>) -> u16
    ensures { result ≡ named_field name }
{
    u16::from(name.is_some())
}

fn name_fields(name: Option<Name>) -> Name
    ensures { result ≡ name_fields name }
{
    name.unwrap_or_default()
}

fn operation_field(target: Option<TargetState>) -> u16
    ensures { result ≡ operation_field target }
{
    target.map_or(0, |x| u16::from(x.operation))
}

fn target_field(target: Option<TargetState>) -> u16
    ensures { result ≡ target_field target }
{
    target.map_or(0, |x| x.id)
}

// The rule of a heading, a text and a list, at the next position: its id is the position.
fn rule_with(h: Head, k: u16, t: RuleText, l: StateList) -> Rule
    ensures { result ≡ rule_of h k t l }
{
    let name = name_fields(h.name);
    Rule {
        has_id: 1,
        id: k,
        named: named_field(h.name),
        span_start: h.name_span.start,
        span_end: h.name_span.end,
        name_from: name.from,
        name_length: name.length,
        place: t.place,
        text_from: t.from,
        text_length: t.length,
        list_from: l.from,
        list_count: l.count,
        operation: operation_field(h.target_state),
        target: target_field(h.target_state),
    }
}

// ---- where the text and the list stand

fn source_text(a: usize, c: usize) -> RuleText
    requires { (a ≤ c) × (c ≤ 65535) }
    ensures { result ≡ source_text a c }
{
    RuleText {
        place: 0,
        from: a as u16,
        length: (c - a) as u16,
    }
}

// The rewritten text behind the first `before` bytes of it.
fn text_since(before: u16, now: u16) -> RuleText
    ensures { result ≡ record { place = 1; from = before; length = now - before } }
{
    RuleText {
        place: 1,
        from: before,
        length: now.saturating_sub(before),
    }
}

// The entries behind the first `before` of them.
fn list_since(before: u16, now: u16) -> StateList
    ensures { result ≡ record { from = before; count = now - before } }
{
    StateList {
        from: before,
        count: now.saturating_sub(before),
    }
}

// ---- the pattern

// The pattern of the line up to c, and the rule. The line, what stands behind the pattern, the pattern's end and the states come from four callees,
// and no two of them go on together, so they stay parameters.
#[tactic(auto, using(crate::proofs::Patterns::patterning))]
pub fn parse_pattern(
    at: FileLine,
    h: Head,
    c: usize,
    states: &Records<State>,
    areas: &mut RuleAreas,
) -> Result<usize, Stop>
    requires start_le_c { (at.line.start ≤ c) × (c ≤ length at.file.source.now) }
    requires held_sheet { SheetHeld areas.old }
    ensures same { SameAreas areas.old areas.new }
    ensures faults { SameFaults areas.old areas.new }
    ensures does { DoesSheet (λ k. pattern (asked_by at.entry.file) k at.entry.line.start at.entry.line.end h c states.now) areas result }
{
    let FileLine { file, line } = at;
    let place = line.start as u16;
    let entries = areas.counts.sheet.entries;
    let before = areas.counts.sheet.text;
    let text = match body_of(file.source, line.start, c) {
        Body::Unclosed => return Err(Stop::Fault(LexErrorKind::InvalidStartState.at(place))),
        Body::Listed(g) => {
            let count = &mut areas.counts.sheet.entries;
            parse_start_states(file, line.start, g, states, areas.entries, count)?;
            source_text(g + 1, c)
        }
        Body::Rewritten => {
            areas.counts.sheet.text = unescape(
                file.source,
                file.options.posix_escapes,
                line.start,
                c,
                areas.text,
                before,
            )?;
            text_since(before, areas.counts.sheet.text)
        }
        Body::Plain => source_text(line.start, c),
    };
    let list = list_since(entries, areas.counts.sheet.entries);
    let rule = rule_with(h, areas.counts.sheet.rules, text, list);
    record_rule(
        file.verdicts,
        place,
        line.end,
        rule,
        areas.rules,
        &mut areas.counts.sheet.rules,
    )
}
