// Quick tests of the rules and the list entries of a sheet, eight fields at a time. The compiler makes one vector of each eight, so every
// lane does what every other does, and a field that is not asked for has no limit. Where a test passes, every record keeps the limits; where
// it does not, nothing is known. A lane goes by the bytes of the rules, where its fields have numbers; a record has names for them.
#![tactic(auto)]

ghost use Rattle.std.specs.Prelude.{◌≡◌, ◌+◌, ◌*◌, ◌^◌, ◌≤◌, ◌<◌, true, length, bit_or};
ghost use Rattle.std.specs.List.{fold};
ghost use Rattle.area.specs.Records.{rule_width};
ghost use Rattle.lanes.specs.Lanes.{lane_count, lane_at, FieldsWithin, SumWithin, Joined, AllZero, RulesWithin, EntriesWithin};

use area::list::Records;
use area::{Record, Rule, read_field};

// No limit: no field is above it.
const ANY: u16 = u16::MAX;

const LANES: usize = 8;

// The fields of a lane: the one at a place, and those 1, 4, 5 and 6 fields behind it.
#[derive(Clone, Copy)]
struct Lane {
    here: u16,
    next: u16,
    place: u16,
    from: u16,
    last: u16,
}

// The limits of the lanes: what `field_excess` and `sum_excess` ask of lane j stands at place j of each. The limits of a kind are one array, a
// row of the table of fields below; a value for each lane, of five limits, would hide the table in eight places.
#[derive(Drop)]
struct Limits {
    heres: [u16; LANES],
    order: [u16; LANES],
    lasts: [u16; LANES],
    sums: [u16; LANES],
    more: [u16; LANES],
}

// The greatest numbers that a rule may have: the ends of a span, a name and a text in the source, a target, and the ends of a list and of a
// rewritten text.
#[derive(Clone, Copy)]
pub struct Bounds {
    pub source: u16,
    pub highest: u16,
    pub entries: u16,
    pub text: u16,
}

// ---- a lane

#[tactic(auto, unfolding(crate::specs::Lanes::lane_at, area::specs::Bytes::field_from))]
fn read_lane(area: &[u8], at: usize, j: usize) -> Lane
    requires { at + 2 * j + 14 ≤ length area.now }
    ensures { result ≡ lane_at area.now at j }
{
    let first = at + 2 * j;
    Lane {
        here: read_field(area, first),
        next: read_field(area, first + 2),
        place: read_field(area, first + 8),
        from: read_field(area, first + 10),
        last: read_field(area, first + 12),
    }
}

// 0 only where two fields keep their limits. The first limit is the next field where `heres` is 0 and `order` has every bit.
fn field_excess(x: Lane, heres: u16, order: u16, lasts: u16) -> u16
    ensures { result ≡ 0 → FieldsWithin x heres order lasts }
{
    x.here.saturating_sub(heres | (x.next & order)) | x.last.saturating_sub(lasts)
}

// 0 only where the sum of two fields keeps its limit: `sums` where the place is 0, and `more` beyond it where the place is 1.
fn sum_excess(x: Lane, sums: u16, more: u16) -> u16
    ensures { result ≡ 0 → SumWithin x sums more }
{
    let limit = sums.wrapping_add(x.place.wrapping_mul(more));
    x.from.saturating_add(x.last).saturating_sub(limit)
}

// ---- the lanes of a rule

// What is above a limit in the rule at a place is joined to the number of its lane: what is not 0 stays so.
fn join(area: &[u8], at: usize, limits: &Limits, excess: &mut [u16; LANES])
    requires { at + rule_width ≤ length area.now }
    ensures { Joined area.now limits.now at lane_count excess.old excess.new }
{
    for j in 0..LANES {
        let x = read_lane(area, at, j);
        let fields = field_excess(x, limits.heres[j], limits.order[j], limits.lasts[j]);
        excess[j] |= fields | sum_excess(x, limits.sums[j], limits.more[j]);
    }
}

// The bits of all numbers.
fn joint(xs: &[u16; LANES]) -> u16
    ensures { result ≡ fold bit_or 0 xs.now }
{
    xs.iter().fold(0, |bits, x| bits | *x)
}

// Whether each number is 0.
fn all_zero(excess: &[u16; LANES]) -> bool
    ensures { result ≡ true → AllZero excess.now }
{
    joint(excess) == 0
}

// A rule's fields: 0 has_id, 1 id, 2 named, 3 span_start, 4 span_end, 5 name_from, 6 name_length, 7 place, 8 text_from, 9 text_length,
// 10 list_from, 11 list_count, 12 operation, 13 target. Lane j asks field j (`heres`), field j + 6 (`lasts`) and the sum of the fields j + 5
// and j + 6 (`sums`, a name, a text and a list). In lane 3 the start of a span is at most the next field, its end (`order`), and the limit of
// a text is that of the source at place 0 and that of the rewritten text at place 1 (`more`). Limits of sums are below 65,535, where sums
// are cut.
pub fn quick_rules(rules: &Records<Rule>, bounds: Bounds) -> bool
    requires { (bounds.source ≤ 65534) × (bounds.entries ≤ 65534) × (bounds.text ≤ 65534) }
    ensures { result ≡ true → RulesWithin rules.now bounds }
{
    let area = rules.bytes();
    let Bounds {
        source,
        highest,
        entries,
        text,
    } = bounds;
    let heres = [1, ANY, 1, 0, source, ANY, ANY, 1];
    let order = [0, 0, 0, ANY, 0, 0, 0, 0];
    let lasts = [ANY, ANY, ANY, ANY, ANY, ANY, 3, highest];
    let sums = [source, ANY, ANY, source, ANY, entries, ANY, ANY];
    let more = [0, 0, 0, text.wrapping_sub(source), 0, 0, 0, 0];
    let limits = Limits {
        heres,
        order,
        lasts,
        sums,
        more,
    };
    let mut excess = [0; LANES];
    for k in 0..rules.count() {
        join(area, k * Rule::WIDTH, &limits, &mut excess);
    }
    all_zero(&excess)
}

// ---- list entries

// Whether n entries, from one on, are within. It looks at all of them without a branch, so that the compiler makes one vector of eight. It takes
// their number, and not the end: by the end the loop over the blocks had an instruction more for each.
fn each_within(entries: &Records<u16>, from: usize, n: usize, highest: u16) -> bool
    requires { (from + n ≤ length entries.now) × (from + n < 2 ^ 64) }
    ensures { result ≡ true → EntriesWithin entries.now from (from + n) highest }
{
    let mut excess = 0;
    for j in 0..n {
        excess |= entries.get(from + j).saturating_sub(highest);
    }
    excess == 0
}

// It leaves at the first eight that do not pass, so that the compiler does not gather one entry of each eight.
pub fn entries_within(entries: &Records<u16>, highest: u16) -> bool
    ensures { result ≡ true → EntriesWithin entries.now 0 (length entries.now) highest }
{
    let most = entries.count();
    let blocks = most / LANES;
    for k in 0..blocks {
        if !each_within(entries, k * LANES, LANES, highest) {
            return false;
        }
    }
    each_within(entries, blocks * LANES, most % LANES, highest)
}
