// The entry of each rule, looked up once, and marks of the entries that a rule has: the numbers and the ids go by them.
ghost use Rattle.std.specs.Prelude.{◌≡◌, ◌≤◌, length, replicate, false, None};
ghost use Rattle.area.specs.Records.{most_rules};
ghost use Rattle.name_map.specs.Map.{most_entries, found_entry};
ghost use Rattle.link.specs.Matches.{MatchedInto, Matched};
ghost use Rattle.area.specs.Phrases.{before, after};
ghost use Rattle.name_map.specs.Phrases.{map_in, entries_in};
ghost use Rattle.link.specs.Phrases.{rule_names_in};

use area::list::Records;
use area::{Record, Rule};
use name_map::MapEntry;
use name_map::index::{NameIndex, Slot, free_slots, read_slots};
use text::range::part;

// The entry with a rule's name.
#[tactic(auto, unfolding(names::specs::Names::name_of))]
fn entry_of(src: &[u8], index: &NameIndex, x: Rule) -> Option<usize>
    ensures { result ≡ found_entry (map_in index.now.map) (rule_names_in src.now x) }
{
    index.find(part(src, x.name_from as usize, x.name_end()))
}

// What the rules of a sheet find in a map: how many named rules find no entry, the entry of each one that finds one, and the entries that are found.
#[derive(Drop)]
pub struct Matches {
    pub unmapped_count: u16,
    pub found: [Option<u16>; Rule::MOST],
    pub used: [bool; MapEntry::MOST],
}

// Each rule looked up. The link itself goes by `match_rules_into`, which copies no array.
pub fn match_rules(src: &[u8], rules: &Records<Rule>, index: &NameIndex) -> Matches
    requires few_rules { length rules.now ≤ most_rules }
    requires few_entries { length index.now.map.entries.now ≤ most_entries }
    ensures { Matched (rule_names_in src.now) (map_in index.now.map) rules.now result }
{
    let mut found = free_slots();
    let mut used = [false; MapEntry::MOST];
    let unmapped_count = match_rules_into(src, rules, index, &mut found, &mut used);
    Matches {
        unmapped_count,
        found: read_slots(&found),
        used,
    }
}

// How many named rules find no entry. The entry of each one that finds one is kept, and marked. The two arrays are lent: as a part of the answer
// they were copied on the way.
pub fn match_rules_into(
    src: &[u8],
    rules: &Records<Rule>,
    index: &NameIndex,
    found: &mut [Slot; Rule::MOST],
    used: &mut [bool; MapEntry::MOST],
) -> u16
    requires few_rules { length rules.now ≤ most_rules }
    requires few_entries { length index.now.map.entries.now ≤ most_entries }
    requires none_found { entries_in found.old ≡ replicate most_rules None }
    requires none_used { used.old ≡ replicate most_entries false }
    ensures { MatchedInto (rule_names_in src.now) (map_in index.now.map) rules.now result (entries_in found.new) used.new }
{
    let mut unmapped_count = 0;
    for k in 0..rules.count() {
        let x = rules.get(k);
        if !x.is_named() {
            continue;
        }
        let Some(j) = entry_of(src, index, x) else {
            unmapped_count += 1;
            continue;
        };
        found[k] = Slot::of(j as u16);
        used[j] = true;
    }
    unmapped_count
}

#[cfg(test)]
mod tests {
    use super::*;
    use crate::rule_ids::link_rules;
    use name_map::index::{SLOTS, check_map};

    // The first rule has a name without an entry and loses its id, the second has the second entry's name, the third none: it keeps its id.
    #[test]
    fn rules_matched_and_linked(rt: HostRuntime) {
        let src = b"ac";
        let mut area = [0; 84];
        let unnamed = Rule {
            has_id: 1,
            id: 7,
            ..Rule::read(&[0; 28], 0)
        };
        let named = Rule {
            named: 1,
            name_length: 1,
            ..unnamed
        };
        named.write(&mut area, 0);
        Rule {
            name_from: 1,
            ..named
        }
        .write(&mut area, 1);
        unnamed.write(&mut area, 2);
        let mut slots = free_slots::<SLOTS>();
        let checked = check_map(b"bc", &[0, 0, 1, 0, 8, 0, 1, 0, 1, 0, 9, 0], &mut slots);
        assert!(rt; checked.is_some());
        let Some(map) = checked else {
            return;
        };
        let index = NameIndex { map, slots: &slots };
        assert!(rt; index.map.entries.len() <= MapEntry::MOST);
        let rules = Records::new(&area, 3);
        assert!(rt; rules.count() <= Rule::MOST);
        let matches = match_rules(src, &rules, &index);
        assert_eq!(rt; matches.unmapped_count, 1);
        for (k, want) in [(0, None), (1, Some(1)), (2, None)] {
            assert_eq!(rt; matches.found[k], want, "found for {k}");
        }
        for (j, want) in [(0, false), (1, true)] {
            assert_eq!(rt; matches.used[j], want, "mark of {j}");
        }
        link_rules(&mut area, 3, &index.map, &matches.found);
        for (k, want) in [(0, (0, 0)), (1, (1, 9)), (2, (1, 7))] {
            let x = Rule::read(&area, k);
            assert_eq!(rt; (x.has_id, x.id), want, "at {k}");
        }
    }
}
