// The ids of the rules: a named rule gets its entry's id, or none (01, Linking).
ghost use Rattle.std.specs.Prelude.{◌≡◌, ℕ, List, ◌*◌, ◌<◌, ◌≤◌, length, slice_index_or, Some, None};
ghost use Rattle.area.specs.declared.Rule.{Rule};
ghost use Rattle.area.specs.Records.{rule_width, most_rules};
ghost use Rattle.area.specs.Contents.{rule_format, relaid};
ghost use Rattle.name_map.specs.Map.{option_of};
ghost use Rattle.link.specs.Link.{with_found, link_rules};
ghost use Rattle.link.specs.Matches.{EntriesFound, FoundInside, link_to};
ghost use Rattle.area.specs.Phrases.{before, after};
ghost use Rattle.name_map.specs.Phrases.{map_in, entries_in};
ghost use Rattle.link.specs.Phrases.{rules_in};

use area::{Record, Rule};
use name_map::NameMap;
use name_map::index::Slot;

#[tactic(auto, unfolding(crate::specs::Link::with_id, crate::specs::Link::with_found))]
fn with_id(x: Rule, id: Option<u16>) -> Rule
    ensures { result ≡ with_found (option_of id) x }
{
    Rule {
        has_id: u16::from(id.is_some()),
        id: id.unwrap_or(0),
        ..x
    }
}

// A named rule gets the id of the entry that was found, or none.
fn link_rule(map: &NameMap, found: Option<u16>, x: Rule) -> Rule
    requires { (j : ℕ) → found ≡ Some j → j < length map.now.entries.now }
    ensures { result ≡ link_to (map_in map.now) found x }
{
    if !x.is_named() {
        return x;
    }
    // by `map` of the Option the closure's answer was not known to the proof
    match found {
        Some(j) => with_id(x, Some(map.entry(j as usize).id)),
        None => with_id(x, None),
    }
}

// What was found for the rule at a place.
fn option_at(options: &[Option<u16>; Rule::MOST], at: usize) -> Option<u16>
    requires { at < most_rules }
    ensures { result ≡ slice_index_or options.now at None }
{
    options[at]
}

// The same, of slots.
#[tactic(auto, using(name_map::proofs::Slots::slot_read))]
fn found_at(found: &[Slot; Rule::MOST], at: usize) -> Option<u16>
    requires { at < most_rules }
    ensures { result ≡ slice_index_or (entries_in found.now) at None }
{
    found[at].entry()
}

// The rules by the entries that were found, whatever says which name a rule has. Every rule is written back whole, so that an area holds the
// linked rules. The count is that of the rules in use, which fill a part of the area.
pub fn link_rules(area: &mut [u8], count: u16, map: &NameMap, found: &[Option<u16>; Rule::MOST])
    requires count_le_most_rules { (count ≤ most_rules) × (count * rule_width ≤ length area.old) }
    requires found_inside { FoundInside (map_in map.now) found.now }
    ensures { (name : Rule → List ℕ) → EntriesFound name (map_in map.now) (rules_in area.old count) count found.now
        → area.new ≡ relaid rule_format area.old (link_rules name (map_in map.now) (rules_in area.old count)) }
{
    for at in 0..count as usize {
        let x = Rule::read(area, at);
        link_rule(map, option_at(found, at), x).write(area, at);
    }
}

// The same by slots, which have two bytes each where an option has four.
pub fn link_rules_by_slots(area: &mut [u8], count: u16, map: &NameMap, found: &[Slot; Rule::MOST])
    requires count_le_most_rules { (count ≤ most_rules) × (count * rule_width ≤ length area.old) }
    requires found_inside { FoundInside (map_in map.now) (entries_in found.now) }
    ensures { (name : Rule → List ℕ) → EntriesFound name (map_in map.now) (rules_in area.old count) count (entries_in found.now)
        → area.new ≡ relaid rule_format area.old (link_rules name (map_in map.now) (rules_in area.old count)) }
{
    for at in 0..count as usize {
        let x = Rule::read(area, at);
        link_rule(map, found_at(found, at), x).write(area, at);
    }
}
