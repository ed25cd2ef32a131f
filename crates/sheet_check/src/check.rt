// The sheet check (01, Linking, the end). The run asks for it at each step, and mostly of a sheet that passes: the tests of a record are
// joined without a branch, and the rules, the longest of the records, go by a quick test of eight fields at a time first.
ghost use Rattle.std.specs.Prelude.{◌≡◌, true, ◌*◌, ◌≤◌, min, leb};
ghost use Rattle.area.specs.Lists.{all};
ghost use Rattle.sheet_check.specs.SheetCheck.{good_counts, good_sizes, ordered, within, declared, text_bytes};
ghost use Rattle.sheet_check.specs.SheetCheck.{good_state, good_rule, good_expected, good_records, sheet_check};
ghost use Rattle.sheet_check.specs.Phrases.{lent_sheet, GoodSizes};

use crate::{Sheet, Sizes};
use area::list::Records;
use area::{Expected, Record, Rule, State};
use lanes::{Bounds, entries_within, quick_rules};

// ---- a record

// A range by its start and end: in order, and inside n.
fn is_ordered(start: u16, end: u16, n: usize) -> bool
    ensures { result ≡ ordered start end n }
{
    (start <= end) & (end as usize <= n)
}

// A range by its start and length. The sum is wider than a field, so that it cannot wrap.
fn is_within(from: u16, count: u16, n: usize) -> bool
    ensures { result ≡ within from count n }
{
    from as usize + count as usize <= n
}

#[tactic(auto, unfolding(crate::specs::SheetCheck::good_state))]
fn good_state(sizes: Sizes, x: State) -> bool
    ensures { result ≡ good_state sizes x }
{
    is_ordered(x.start, x.end, sizes.source) & (x.exclusive <= 1)
}

// How many bytes there are at a rule's place.
#[tactic(auto, unfolding(crate::specs::SheetCheck::text_bytes))]
fn bytes_at(sizes: Sizes, place: u16) -> usize
    ensures { result ≡ text_bytes sizes place }
{
    if place == 1 {
        return sizes.text as usize;
    }
    sizes.source
}

#[tactic(auto, unfolding(crate::specs::SheetCheck::good_rule))]
fn good_rule(sizes: Sizes, x: Rule) -> bool
    ensures { result ≡ good_rule sizes x }
{
    let span = is_ordered(x.span_start, x.span_end, sizes.source);
    let name = is_within(x.name_from, x.name_length, sizes.source);
    let bytes = bytes_at(sizes, x.place);
    let pattern = is_within(x.text_from, x.text_length, bytes);
    let list = is_within(x.list_from, x.list_count, sizes.entries as usize);
    (x.has_id <= 1)
        & (x.named <= 1)
        & (x.place <= 1)
        & span
        & name
        & pattern
        & list
        & (x.operation <= 3)
        & (x.target < sizes.states)
}

#[tactic(auto, unfolding(crate::specs::SheetCheck::good_expected))]
fn good_expected(sizes: Sizes, x: Expected) -> bool
    ensures { result ≡ good_expected sizes x }
{
    is_ordered(x.start, x.end, sizes.source)
}

// ---- lists of records

fn good_states(sizes: Sizes, states: &Records<State>) -> bool
    ensures { result ≡ all (good_state sizes) states.now }
{
    states.all(|x| good_state(sizes, x))
}

fn good_rules(sizes: Sizes, rules: &Records<Rule>) -> bool
    ensures { result ≡ all (good_rule sizes) rules.now }
{
    rules.all(|x| good_rule(sizes, x))
}

// Also whether the ids in use on the stack of a run are declared.
pub fn good_entries(entries: &Records<u16>, states: u16) -> bool
    ensures { result ≡ all (declared states) entries.now }
{
    entries.all(|id| id < states)
}

fn good_names(sizes: Sizes, names: &Records<Expected>) -> bool
    ensures { result ≡ all (good_expected sizes) names.now }
{
    names.all(|x| good_expected(sizes, x))
}

// ---- the rules, by the quick test first

// The greatest limit of a sum, so that one that was cut at 65,535 is above every limit.
const MOST_SUM: u16 = 65534;

fn sum_limit(n: usize) -> u16
    ensures { result ≡ min n 65534 }
{
    n.min(MOST_SUM as usize) as u16
}

// The quick test of the rules: where it passes, every rule is good.
fn rules_within(sizes: Sizes, rules: &Records<Rule>) -> bool
    requires { 1 ≤ sizes.states }
    ensures { result ≡ true → all (good_rule sizes) rules.now ≡ true }
{
    let bounds = Bounds {
        source: sum_limit(sizes.source),
        highest: sizes.states - 1,
        entries: sum_limit(sizes.entries as usize),
        text: sum_limit(sizes.text as usize),
    };
    quick_rules(rules, bounds)
}

// The quick test first, which the rules of a sheet mostly pass.
fn rules_pass(sizes: Sizes, rules: &Records<Rule>) -> bool
    requires { 1 ≤ sizes.states }
    ensures { result ≡ all (good_rule sizes) rules.now }
{
    rules_within(sizes, rules) || good_rules(sizes, rules)
}

// ---- the sheet

// Whether so many bytes are enough for so many records.
fn is_long<R: Record>(bytes: usize, count: u16) -> bool
    ensures { result ≡ leb (count * R.format.width) bytes }
{
    count as usize * R::WIDTH <= bytes
}

#[tactic(auto, unfolding(crate::specs::SheetCheck::good_counts))]
fn good_counts(states: u16, rules: u16) -> bool
    ensures { result ≡ good_counts states rules }
{
    (1 <= states) & (states as usize <= State::MOST) & (rules as usize <= Rule::MOST)
}

#[tactic(auto, using(crate::proofs::Judging::sizes_judged))]
fn good_sizes(sizes: Sizes) -> bool
    ensures { result ≡ good_sizes sizes }
{
    let long1 = is_long::<State>(sizes.area1, sizes.states);
    let long2 = is_long::<Rule>(sizes.area2, sizes.rules);
    let long3 = is_long::<u16>(sizes.area3, sizes.entries);
    let long4 = is_long::<u8>(sizes.area4, sizes.text);
    let long5 = is_long::<Expected>(sizes.area5, sizes.expected);
    let few = good_counts(sizes.states, sizes.rules);
    long1 & long2 & long3 & long4 & long5 & few
}

// Area 4 and the source are asked for their lengths alone.
#[tactic(auto, using(crate::proofs::Sheets::records_of))]
fn good_records(sheet: Sheet) -> bool
    requires { GoodSizes sheet }
    ensures { result ≡ sheet_check (lent_sheet sheet.entry) }
{
    let sizes = sheet.sizes();
    good_states(sizes, &sheet.state_records())
        && rules_pass(sizes, &sheet.rule_records())
        && good_entries(&sheet.entry_records(), sizes.states)
        && good_names(sizes, &sheet.expected_records())
}

// Whether what the host hands in is a sheet. The sizes first, so that every record may be read.
#[tactic(auto, using(crate::proofs::Judging::sizes_fail))]
pub fn check(sheet: Sheet) -> bool
    ensures { result ≡ sheet_check (lent_sheet sheet.entry) }
{
    good_sizes(sheet.sizes()) && good_records(sheet)
}

// ---- the sheet, asked at every move

// The quick tests alone: where they pass, every record is good.
#[tactic(auto, using(crate::proofs::Sheets::records_of))]
fn quick_records(sheet: Sheet) -> bool
    requires { GoodSizes sheet }
    ensures { result ≡ true → sheet_check (lent_sheet sheet.entry) ≡ true }
{
    let sizes = sheet.sizes();
    good_states(sizes, &sheet.state_records())
        && rules_within(sizes, &sheet.rule_records())
        && entries_within(&sheet.entry_records(), sizes.states - 1)
        && good_names(sizes, &sheet.expected_records())
}

// Whether what the host hands in is a sheet, as `check` says, for the step alone, which asks at every move: with one caller it becomes part
// of that caller. Bad sizes do not go on to `check`: where they did, the address of every area was worked out first, of a good sheet too.
#[tactic(auto, using(crate::proofs::Judging::sizes_fail))]
pub fn quick_check(sheet: Sheet) -> bool
    ensures { result ≡ sheet_check (lent_sheet sheet.entry) }
{
    good_sizes(sheet.sizes()) && (quick_records(sheet) || check(sheet))
}
