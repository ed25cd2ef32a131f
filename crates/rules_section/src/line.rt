// A line of the rules section: a rule, or text that starts with whitespace (01, Rules).
ghost use Rattle.names.specs.Marks.{NamesHeld};
ghost use Rattle.section.specs.Request.{asked_by};
ghost use Rattle.rules_section.specs.RulesSection.{rule, line};
ghost use Rattle.rules_section.specs.Areas.{SameAreas, RuledHeld, rules_in};
ghost use Rattle.rules_section.specs.Phrases.{DoesRuled};

use crate::areas::RuleAreas;
use crate::pattern::parse_pattern;
use area::State;
use area::list::Records;
use characters::whitespace::matches_whitespace;
use fault::{LexErrorKind, Span, Stop, add_duplicate_occurrence, add_fault};
use names::NamedRules;
use names::marks::MARKS;
use rules::Heading;
use rules::headings::heading_of;
use section::reader::{FileLine, Line};
use text::scan::{trim_end, trim_end_unescaped};

// The rule in the line.
#[tactic(auto, using(crate::proofs::RuleLines::ruling))]
fn parse_rule(
    at: FileLine,
    states: &Records<State>,
    areas: &mut RuleAreas,
    marks: &[bool; MARKS],
) -> Result<usize, Stop>
    requires held_ruled { RuledHeld areas.old }
    requires names_held { NamesHeld at.file.source.now (rules_in areas.old) marks.now }
    ensures same { SameAreas areas.old areas.new }
    ensures does { DoesRuled (λ k c6. rule (asked_by at.entry.file) states.now k c6 at.entry.line.start at.entry.line.end) areas result }
{
    let FileLine { file, line } = at;
    let trimmed = FileLine {
        file,
        line: Line {
            start: line.start,
            end: trim_end(file.source, line.start, line.end),
        },
    };
    let rules = NamedRules::new(file.source, areas.rule_records(), marks);
    match heading_of(trimmed, states, &rules)? {
        Heading::Repeated(first, again) => {
            let kind = LexErrorKind::DuplicateName;
            let count = areas.counts.faults;
            areas.counts.faults = add_duplicate_occurrence(
                areas.faults,
                count,
                kind,
                first,
                again,
            )?;
            Ok(line.end)
        }
        Heading::Fresh(b, h) => {
            let c = trim_end_unescaped(file.source, line.start, b);
            parse_pattern(at, h, c, states, areas)
        }
    }
}

// The line. One that starts with whitespace is a fault over the line, and parsing goes on.
#[tactic(auto, using(crate::proofs::RuleLines::lining))]
pub fn parse_line(
    at: FileLine,
    states: &Records<State>,
    areas: &mut RuleAreas,
    marks: &[bool; MARKS],
) -> Result<usize, Stop>
    requires held_ruled { RuledHeld areas.old }
    requires names_held { NamesHeld at.file.source.now (rules_in areas.old) marks.now }
    ensures same { SameAreas areas.old areas.new }
    ensures does { DoesRuled (λ k c6. line (asked_by at.entry.file) states.now k c6 at.entry.line.start at.entry.line.end) areas result }
{
    let FileLine { file, line } = at;
    if matches_whitespace(file.source, line.start) {
        let kind = LexErrorKind::VerbatimNotSupported;
        let span = Span {
            start: line.start as u16,
            end: line.end as u16,
        };
        areas.counts.faults = add_fault(areas.faults, areas.counts.faults, kind, span)?;
        return Ok(line.end);
    }
    parse_rule(at, states, areas, marks)
}
