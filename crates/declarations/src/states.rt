// The states that a line declares (01, Declarations). `exclusive` is a field of their records, and chooses no step.
ghost use Rattle.std.specs.Prelude.{◌≡◌};
ghost use Rattle.declarations.specs.Declarations.{state, declare_state, state_names};
ghost use Rattle.declarations.specs.Stages.{naming_of};
ghost use Rattle.declarations.specs.Areas.{SameAreas, SameExpected, NamesHeld};
ghost use Rattle.declarations.specs.Phrases.{DoesNames};

use crate::areas::DeclarationAreas;
use area::list::Records;
use area::{State, push};
use characters::whitespace::whitespace_len;
use fault::{LexErrorKind, Span, Stop, add_duplicate_occurrence};
use names::{get_start_state_by_name, validate_start_state_name};
use section::reader::{FileLine, Line};
use text::scan::find_whitespace;

// The span of the state that has the name, if there is one.
#[tactic(auto, using(crate::proofs::Declares::validating))]
fn validate_start_state(
    name: FileLine,
    states: &Records<State>,
) -> Result<Option<Span>, LexErrorKind>
    ensures { result ≡ naming_of name.entry.file.source.now name.entry.line.start name.entry.line.end states.now }
{
    let FileLine { file, line } = name;
    if !validate_start_state_name(file.source, line.start, line.end) {
        return Err(LexErrorKind::InvalidStartStateName);
    }
    let Some(j) = get_start_state_by_name(file.source, line.start, line.end, states) else {
        return Ok(None);
    };
    Ok(Some(states.get(j).into()))
}

// Declares the name, and goes on behind the whitespace character that ends it.
#[tactic(auto, using(crate::proofs::Declares::declaring))]
fn declare_state(
    name: FileLine,
    exclusive: u16,
    areas: &mut DeclarationAreas,
) -> Result<usize, Stop>
    requires held_names { NamesHeld areas.old }
    ensures same { SameAreas areas.old areas.new }
    ensures expected { SameExpected areas.old areas.new }
    ensures does { DoesNames
        (λ k. declare_state name.entry.file.source.now k (state name.entry.line.start name.entry.line.end exclusive))
        areas result }
{
    let FileLine { file, line } = name;
    let next = line.end + whitespace_len(file.source, line.end);
    let start = line.start as u16;
    let end = line.end as u16;
    let named = validate_start_state(name, &areas.state_records());
    match named.map_err(|kind| Stop::Fault(kind.at(start)))? {
        Some(first) => {
            let kind = LexErrorKind::DuplicateStartState;
            let again = Span { start, end };
            let count = areas.counts.names.faults;
            let count = add_duplicate_occurrence(areas.faults, count, kind, first, again)?;
            areas.counts.names.faults = count;
        }
        None => {
            let x = State {
                start,
                end,
                exclusive,
            };
            areas.counts.names.states = push(areas.states, areas.counts.names.states, x)?;
        }
    }
    Ok(next)
}

// Declares the names in a part of the line, each as far as it goes: no index is counted.
#[tactic(auto, using(crate::proofs::Declares::declaring_all))]
pub fn declare_start_states(
    part: FileLine,
    exclusive: u16,
    areas: &mut DeclarationAreas,
) -> Result<usize, Stop>
    requires held_names { NamesHeld areas.old }
    ensures same { SameAreas areas.old areas.new }
    ensures expected { SameExpected areas.old areas.new }
    ensures does { DoesNames (λ k. state_names part.entry.file.source.now k exclusive part.entry.line) areas result }
{
    let FileLine { file, line } = part;
    let mut at = line.start;
    while at < line.end {
        let name = FileLine {
            file,
            line: Line {
                start: at,
                end: find_whitespace(file.source, at, line.end),
            },
        };
        at = declare_state(name, exclusive, areas)?;
    }
    Ok(at)
}
