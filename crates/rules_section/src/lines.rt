// The rules section (01, Rules).
ghost use Rattle.std.specs.Prelude.{◌≤◌, length};
ghost use Rattle.names.specs.Names.{DistinctNames};
ghost use Rattle.names.specs.Marks.{NamesInside};
ghost use Rattle.section.specs.Request.{asked_by};
ghost use Rattle.rules_section.specs.RulesSection.{rules_section};
ghost use Rattle.rules_section.specs.Areas.{SameAreas, RuledHeld, rules_in};
ghost use Rattle.rules_section.specs.Phrases.{DoesRuled};

use crate::areas::RuleAreas;
use crate::line::parse_line;
use area::State;
use area::list::Records;
use fault::{LexErrorKind, Stop};
use names::marks::{MARKS, mark_rules};
use section::reader::{FileLine, next_rule};
use section::{LexFile, has_routines, in_section};

// The rules from i on, and what follows them, from line to line without an index. The marks of the rules so far spare most names a look at each of these rules.
#[tactic(auto, using(crate::proofs::RuleLines::sectioning))]
pub fn parse_rules(
    file: LexFile,
    i: usize,
    states: &Records<State>,
    areas: &mut RuleAreas,
) -> Result<usize, Stop>
    requires i_in_bounds { i ≤ length file.source.now }
    requires held_ruled { RuledHeld areas.old }
    requires distinct_names { DistinctNames file.source.now (rules_in areas.old) }
    requires names_inside { NamesInside file.source.now (rules_in areas.old) }
    ensures same { SameAreas areas.old areas.new }
    ensures does { DoesRuled (λ k c6. rules_section (asked_by file.entry) states.now k c6 i) areas result }
{
    let mut line = next_rule(file.source, file.options, i);
    let mut marks = [false; MARKS];
    mark_rules(file.source, &areas.rule_records(), 0, &mut marks);
    while in_section(file.source, line.start) {
        let marked = areas.counts.sheet.rules as usize;
        parse_line(FileLine { file, line }, states, areas, &marks)?;
        mark_rules(file.source, &areas.rule_records(), marked, &mut marks);
        line = next_rule(file.source, file.options, line.end);
    }
    if has_routines(file.source, line.start) {
        return Err(Stop::Fault(LexErrorKind::RoutinesNotSupported.at(line.start as u16)));
    }
    Ok(line.start)
}
