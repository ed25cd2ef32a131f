// The file from its start: state 0, the declarations, the rules, and whether there are faults (01, Numbers given at the counter).
// Each section is lent its areas as one value, and promises that they stay the areas that were lent: each holds what the section left in it.
ghost use Rattle.std.specs.Prelude.{◌≡◌, ◌≤◌, length};
ghost use Rattle.area.specs.Contents.{fault_format, contents};
ghost use Rattle.area.specs.Phrases.{before, after};
ghost use Rattle.fault.specs.declared.Stop.TheVariants.{Fault};
ghost use Rattle.fault.specs.declared.kinds.LexError.{LexError};
ghost use Rattle.fault.specs.Faults.{HeldFaults};
ghost use Rattle.section.specs.Request.{asked_by};
ghost use Rattle.declarations.specs.Areas.{SameAreas, DeclaredHeld};
ghost use Rattle.declarations.specs.Phrases.{DoesDeclared};
ghost use Rattle.parse.specs.Parse.{opening, file};
ghost use Rattle.parse.specs.Answers.{stopped, nothing_ruled, judged_by, Parses, Refuses, Zeroed};
ghost use Rattle.parse.specs.Phrases.{room_in};

use crate::{FileCounts, ParseError};
use area::list::Records;
use area::{State, push};
use declarations::areas::DeclarationAreas;
use declarations::{DeclarationCounts, parse_declarations};
use fault::{Span, Stop, add_fault};
use rules_section::RuleCounts;
use rules_section::areas::RuleAreas;
use rules_section::lines::parse_rules;
use section::LexFile;

// State 0, then the declarations.
#[tactic(auto, using(crate::proofs::Files::opening_up))]
fn parse_opening(lex_file: LexFile, areas: &mut DeclarationAreas) -> Result<usize, Stop>
    requires held_declared { DeclaredHeld areas.old }
    ensures same { SameAreas areas.old areas.new }
    ensures does { DoesDeclared (λ k. opening lex_file.entry.source.now lex_file.entry.options k) areas result }
{
    let initial = State {
        start: 0,
        end: 0,
        exclusive: 0,
    };
    areas.counts.names.states = push(areas.states, areas.counts.names.states, initial)?;
    parse_declarations(lex_file, 0, areas)
}

// The fault that ends parsing is the last; or an area is full.
#[tactic(auto, using(crate::proofs::Files::closing))]
fn close(stop: Stop, faults: u16, area6: &mut [u8]) -> ParseError
    requires { (error : LexError) → stop ≡ Fault error → HeldFaults area6.old faults }
    ensures { Refuses (stopped (length area6.old) (contents fault_format area6.old faults) stop) area6.new result }
{
    match stop {
        Stop::Full(name) => ParseError::AreaFull(name),
        Stop::Fault(error) => {
            let span = Span {
                start: error.at,
                end: error.at,
            };
            match add_fault(area6, faults, error.kind, span) {
                Ok(n) => ParseError::FaultyFile(n),
                Err(full) => ParseError::AreaFull(full.0),
            }
        }
    }
}

// No rules yet.
fn no_rules(faults: u16) -> RuleCounts
    ensures { result ≡ nothing_ruled faults }
{
    RuleCounts {
        faults,
        ..RuleCounts::default()
    }
}

// At the end of the file.
#[tactic(auto, using(crate::proofs::Files::judging))]
fn judge(d: DeclarationCounts, q: RuleCounts) -> Result<FileCounts, ParseError>
    ensures { result ≡ judged_by d q }
{
    if q.faults == 0 {
        return Ok(FileCounts {
            states: d.names.states,
            rules: q.sheet.rules,
            entries: q.sheet.entries,
            text: q.sheet.text,
            expected: d.expected,
        });
    }
    Err(ParseError::FaultyFile(q.faults))
}

// A file of at most 65,535 bytes, into areas that are zero.
pub fn parse_sections(
    lex_file: LexFile,
    area1: &mut [u8],
    area2: &mut [u8],
    area3: &mut [u8],
    area4: &mut [u8],
    area5: &mut [u8],
    area6: &mut [u8],
) -> Result<FileCounts, ParseError>
    requires zeroed { Zeroed area1.old area2.old area3.old area4.old area5.old area6.old }
    ensures { Parses (file (asked_by lex_file.entry) (room_in area1 area2 area3 area4 area5 area6))
        area1.new area2.new area3.new area4.new area5.new area6.new result }
{
    let mut declaration_areas = DeclarationAreas {
        states: area1,
        expected: area5,
        faults: area6,
        counts: DeclarationCounts::default(),
    };
    match parse_opening(lex_file, &mut declaration_areas) {
        Err(stop) => Err(close(stop, declaration_areas.counts.names.faults, area6)),
        Ok(i) => {
            let declared = declaration_areas.counts;
            let states = Records::new(area1, declared.names.states);
            let mut areas = RuleAreas {
                rules: area2,
                entries: area3,
                text: area4,
                faults: area6,
                counts: no_rules(declared.names.faults),
            };
            match parse_rules(lex_file, i, &states, &mut areas) {
                Err(stop) => Err(close(stop, areas.counts.faults, area6)),
                Ok(_) => judge(declared, areas.counts),
            }
        }
    }
}
