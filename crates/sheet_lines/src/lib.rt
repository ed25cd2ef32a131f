// Lines of text: a word, then numbers, with a blank before each. The records of a sheet's areas, and refusals.
// A contract names each byte of a line, and `write!` promises nothing of what it wrote before an error: so the lines are put by methods of `Text`.
// An area stands beside its count, and not as `Records` of area: `Records::new` asks for room for so many, and these calls may not ask for it.
// A state's name stands in the source, beside the text that it is put into.
#![tactic(auto)]

ghost use Rattle.std.specs.Prelude.{◌≡◌, ℕ, List};
ghost use Rattle.answers.specs.Numbers.{number_of};
ghost use Rattle.area.specs.Records.{state_at, rule_at, fault_at};
ghost use Rattle.output.specs.Output.{joined};
ghost use Rattle.output.specs.Text.{Appends};
ghost use Rattle.sheet_lines.specs.Lines.{state_name, state_line, rule_line, fault_line, refused_head, refused_line, full_line};
ghost use Rattle.sheet_lines.specs.Lines.{state_lines, rule_lines, fault_lines, sheet_lines};

use answers::Number;
use area::{Fault, Record, Rule, State};
use output::Text;
use output::fields::field_at;

// INITIAL is not in the source.
#[tactic(auto, using(crate::proofs::Printing::name_printing))]
fn put_name(out: &mut Text, src: &[u8], k: u16, x: State)
    ensures { Appends out.old out.new (state_name src.now k x.start x.end) }
{
    if k == 0 {
        out.push_text(b"INITIAL");
    } else {
        out.push_part(src, x.start as usize, x.end as usize);
    }
}

// `State::read` of area asks for room for the record; here a state that stands past the end of the area has fields of 0.
#[tactic(auto, using(crate::proofs::Printing::state_printing))]
fn state_at(area: &[u8], k: u16) -> State
    ensures { result ≡ state_at area.now k }
{
    let at = k as usize * State::WIDTH;
    State {
        start: field_at(area, at),
        end: field_at(area, at + 2),
        exclusive: field_at(area, at + 4),
    }
}

fn put_state(out: &mut Text, src: &[u8], k: u16, x: State)
    ensures { Appends out.old out.new (state_line src.now k x) }
{
    out.push_text(b"state");
    out.push_field(k);
    out.push_blank();
    put_name(out, src, k, x);
    out.push_field(x.exclusive);
    out.push_field(x.start);
    out.push_field(x.end);
    out.push_line_end();
}

// The records of an area, each of which is a line. Each implementation has the parameters of the one method.
trait Records {
    ghost line: { Self → ℕ → List ℕ };

    fn put_line(&self, out: &mut Text, k: u16)
        ensures { Appends out.old out.new (line self.now k) };
}

// The states of area 1, whose names stand in the source.
#[derive(Drop)]
struct States<'a> {
    src: &'a [u8],
    area: &'a [u8],
}

#[derive(Drop)]
struct Rules<'a> {
    area: &'a [u8],
}

#[derive(Drop)]
struct Faults<'a> {
    area: &'a [u8],
}

impl<'a> Records for States<'a> {
    ghost line = { λ x k. state_line x.src.now k (state_at x.area.now k) };

    fn put_line(&self, out: &mut Text, k: u16) {
        put_state(out, self.src, k, state_at(self.area, k));
    }
}

impl<'a> Records for Rules<'a> {
    ghost line = { λ x k. rule_line k (rule_at x.area.now k) };

    fn put_line(&self, out: &mut Text, k: u16) {
        out.push_text(b"rule");
        out.push_field(k);
        out.push_fields(self.area, k as usize * Rule::WIDTH, Rule::WIDTH / 2);
        out.push_line_end();
    }
}

impl<'a> Records for Faults<'a> {
    ghost line = { λ x k. fault_line (fault_at x.area.now k) };

    #[tactic(auto, using(crate::proofs::Printing::line_printing))]
    fn put_line(&self, out: &mut Text, k: u16) {
        out.push_text(b"fault");
        out.push_fields(self.area, k as usize * Fault::WIDTH, Fault::WIDTH / 2);
        out.push_line_end();
    }
}

fn put_lines<R: Records>(out: &mut Text, records: &R, count: u16)
    ensures { Appends out.old out.new (joined (R.line records.now) count) }
{
    for k in 0..count {
        records.put_line(out, k);
    }
}

#[tactic(auto, unfolding(crate::specs::Lines::state_lines))]
pub fn put_states(out: &mut Text, src: &[u8], area: &[u8], count: u16)
    ensures { Appends out.old out.new (state_lines src.now area.now count) }
{
    put_lines(out, &States { src, area }, count);
}

#[tactic(auto, unfolding(crate::specs::Lines::rule_lines))]
pub fn put_rules(out: &mut Text, area: &[u8], count: u16)
    ensures { Appends out.old out.new (rule_lines area.now count) }
{
    put_lines(out, &Rules { area }, count);
}

#[tactic(auto, unfolding(crate::specs::Lines::fault_lines))]
pub fn put_faults(out: &mut Text, area: &[u8], count: u16)
    ensures { Appends out.old out.new (fault_lines area.now count) }
{
    put_lines(out, &Faults { area }, count);
}

// The word that both lines of a refusal start with, and its number.
#[tactic(auto, using(crate::proofs::Printing::line_printing))]
fn put_number(out: &mut Text, number: u16)
    ensures { Appends out.old out.new (refused_head number) }
{
    out.push_text(b"refused");
    out.push_field(number);
}

// The number may be any; those of refusals are a `Number`.
#[tactic(auto, using(crate::proofs::Printing::line_printing))]
pub fn put_refused_number(out: &mut Text, number: u16)
    ensures { Appends out.old out.new (refused_line number) }
{
    put_number(out, number);
    out.push_line_end();
}

pub fn put_refused(out: &mut Text, number: Number)
    ensures { Appends out.old out.new (refused_line (number_of number)) }
{
    put_refused_number(out, u16::from(number));
}

#[tactic(auto, using(crate::proofs::Printing::line_printing))]
pub fn put_full(out: &mut Text, area: u16)
    ensures { Appends out.old out.new (full_line area) }
{
    put_number(out, u16::from(Number::AreaFull));
    out.push_field(area);
    out.push_line_end();
}

// Areas and counts are those that `put_states` and `put_rules` take.
#[tactic(auto, using(crate::proofs::Printing::sheet_printing))]
pub fn put_sheet(out: &mut Text, src: &[u8], states: u16, area1: &[u8], rules: u16, area2: &[u8])
    ensures { Appends out.old out.new (sheet_lines src.now area1.now states area2.now rules) }
{
    put_states(out, src, area1, states);
    put_rules(out, area2, rules);
}
