// The numbers of rules and of entries that find no partner, written when both areas have room (01, Linking), two bytes each as the C interface has
// them.
ghost use Rattle.std.specs.Prelude.{◌≡◌, ℕ, List, ◌≤◌, true, length};
ghost use Rattle.std.specs.Iterator.{UpTo, AlwaysYields};
ghost use Rattle.area.specs.Records.{most_rules};
ghost use Rattle.area.specs.Contents.{entry_format, laid};
ghost use Rattle.name_map.specs.Map.{most_entries};
ghost use Rattle.link.specs.Link.{is_unlinked, unlinked, fits};
ghost use Rattle.link.specs.Matches.{unmarked};
ghost use Rattle.area.specs.Phrases.{before, after};

use area::list::Records;
use area::{Record, Rule, clear};

// The numbers that an iterator gives, into an area, and zeros behind them.
fn write_numbers<I: Iterator<Item = u16>>(numbers: I, into: &mut [u8])
    requires can { I.can_next numbers }
    requires few { UpTo (I.remaining numbers) 65535 }
    requires room { (ns : List ℕ) × AlwaysYields I.next_gives (λ n. n) numbers ns × (fits ns into.old ≡ true) }
    ensures { (ns : List ℕ) → AlwaysYields I.next_gives (λ n. n) numbers ns → into.new ≡ laid entry_format (length into.old) ns }
{
    clear(into);
    for (k, number) in numbers.enumerate() {
        number.write(into, k);
    }
}

#[tactic(auto, unfolding(crate::specs::Link::is_unlinked))]
fn is_unlinked(x: Rule) -> bool
    ensures { result ≡ is_unlinked x }
{
    x.is_named() & (x.has_id == 0)
}

// The named rules that have no id, where the rules are linked.
pub fn write_unlinked(rules: &Records<Rule>, into: &mut [u8])
    requires rules_le_most_rules { length rules.now ≤ most_rules }
    requires room { fits (unlinked rules.now) into.old ≡ true }
    ensures { into.new ≡ laid entry_format (length into.old) (unlinked rules.now) }
{
    write_numbers(
        (0..rules.count() as u16).filter(|k| is_unlinked(rules.get(*k as usize))),
        into,
    );
}

// How many entries have no mark. Each mark is added, with no branch, so that the compiler takes many at once; a filter and its count go one by one.
#[tactic(auto, using(area::proofs::Numbers::count_none))]
pub fn count_unused(used: &[bool]) -> u16
    requires { length used.now ≤ most_entries }
    ensures { result ≡ length (unmarked used.now (length used.now)) }
{
    let mut n = 0;
    for j in 0..used.len() {
        n += !used[j] as u16;
    }
    n
}

// Their numbers.
pub fn write_unused(used: &[bool], into: &mut [u8])
    requires few { length used.now ≤ most_entries }
    requires room { fits (unmarked used.now (length used.now)) into.old ≡ true }
    ensures { into.new ≡ laid entry_format (length into.old) (unmarked used.now (length used.now)) }
{
    write_numbers((0..used.len() as u16).filter(|j| !used[*j as usize]), into);
}
