// The declarations of a lex file: start states and expected names (01, Declarations).
#![tactic(auto)]

pub mod areas; // the areas that the section writes
mod line; // what a declaration's line says
mod states; // the states that a line declares
mod missing; // the expected names of a line

ghost use Rattle.std.specs.Prelude.{◌≤◌, length};
ghost use Rattle.declarations.specs.Declarations.{declaration, declarations};
ghost use Rattle.declarations.specs.Areas.{SameAreas, DeclaredHeld};
ghost use Rattle.declarations.specs.Phrases.{DoesDeclared};

use areas::DeclarationAreas;
use fault::{LexErrorKind, Stop};
use line::declaration_of;
use missing::expected_names;
use section::reader::{FileLine, Line, next_declaration, past_blanks};
use section::{LexFile, in_section};
use states::declare_start_states;
use text::range::lookahead_is;

// A declaration's line: names of states (exclusive, and where they stand); expected names (from); or neither, which the definition names too.
#[derive(Clone, Copy, PartialEq, Eq, Debug)]
pub enum Declaration {
    States(u16, Line),
    Expecting(usize),
    Unknown,
}

// How many states and fault spans there are.
#[derive(Clone, Copy, Default)]
pub struct NameCounts {
    pub states: u16,
    pub faults: u16,
}

// The same with the number of expected names.
#[derive(Clone, Copy, Default)]
pub struct DeclarationCounts {
    pub names: NameCounts,
    pub expected: u16,
}

// The declaration in the line.
#[tactic(auto, using(crate::proofs::Lines::lining_up))]
fn parse_declaration(at: FileLine, areas: &mut DeclarationAreas) -> Result<usize, Stop>
    requires held_declared { DeclaredHeld areas.old }
    ensures same { SameAreas areas.old areas.new }
    ensures does { DoesDeclared (λ k. declaration at.entry.file.source.now k at.entry.line.start at.entry.line.end) areas result }
{
    let FileLine { file, line } = at;
    match declaration_of(at) {
        Declaration::States(exclusive, names) => {
            let names = FileLine { file, line: names };
            declare_start_states(names, exclusive, areas)?;
            Ok(line.end)
        }
        Declaration::Expecting(w) => {
            expected_names(at, w, areas.expected, &mut areas.counts.expected)?;
            Ok(line.end)
        }
        Declaration::Unknown => {
            Err(Stop::Fault(LexErrorKind::UnknownDeclaration.at(line.start as u16)))
        }
    }
}

// The declarations from i on, up to the `%%` and the blanks behind it. It goes from line to line and counts no index.
#[tactic(auto, using(crate::proofs::Lines::sectioning))]
pub fn parse_declarations(
    file: LexFile,
    i: usize,
    areas: &mut DeclarationAreas,
) -> Result<usize, Stop>
    requires i_in_bounds { i ≤ length file.source.now }
    requires held_declared { DeclaredHeld areas.old }
    ensures same { SameAreas areas.old areas.new }
    ensures does { DoesDeclared (λ k. declarations file.entry.source.now file.entry.options k i) areas result }
{
    let mut line = next_declaration(file.source, file.options, i);
    while in_section(file.source, line.start) {
        parse_declaration(FileLine { file, line }, areas)?;
        line = next_declaration(file.source, file.options, line.end);
    }
    let Some(j) = lookahead_is(file.source, b"%%", line.start) else {
        return Err(Stop::Fault(LexErrorKind::PrematureEnd.at(line.start as u16)));
    };
    Ok(past_blanks(file.source, j))
}
