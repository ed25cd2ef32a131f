// The link call (01, Linking). Everything is counted before a byte is written, so that a refusal changes nothing. The areas are those of the C
// interface; areas 7 and 8 stay parameters, for a struct of them would have one user, `link_checked`.
ghost use Rattle.std.specs.Prelude.{◌≡◌, ◌*◌, ◌≤◌, length};
ghost use Rattle.area.specs.Records.{rule_width, most_rules};
ghost use Rattle.name_map.specs.Map.{most_entries};
ghost use Rattle.link.specs.Link.{room_for, link_left, link_checked, link_call};
ghost use Rattle.sheet_check.specs.Phrases.{sheet_in};
ghost use Rattle.area.specs.Phrases.{before, after};
ghost use Rattle.name_map.specs.Phrases.{map_in};
ghost use Rattle.link.specs.Phrases.{rules_in, rule_names_in};

use crate::matches::match_rules_into;
use crate::numbers::{count_unused, write_unlinked, write_unused};
use crate::rule_ids::link_rules_by_slots;
use crate::{LinkArea, LinkError, Linked};
use area::list::Records;
use area::{Record, Rule};
use name_map::MapEntry;
use name_map::index::{NameIndex, SLOTS, Slot, check_map};
use sheet_check::Sheet;
use sheet_check::check::check;

// Whether an area has room for so many numbers, of which none is written yet.
#[tactic(auto, unfolding(crate::specs::Link::room_for))]
fn check_room(area: &[u8], count: u16, which: LinkArea) -> Result<(), LinkError>
    ensures { result ≡ room_for count area.now which }
{
    if area.len() < count as usize * u16::WIDTH {
        return Err(LinkError::AreaFull(which));
    }
    Ok(())
}

// A sheet and a map that passed their checks. Area 7 is written from what the rules have become. It is not built into its caller, so that the check
// of the sheet does not stand on the stack above these two arrays.
#[inline(never)]
fn link_checked(
    src: &[u8],
    area2: &mut [u8],
    rules: u16,
    index: &NameIndex,
    area7: &mut [u8],
    area8: &mut [u8],
) -> Result<Linked, LinkError>
    requires few_rules { (rules ≤ most_rules) × (rules * rule_width ≤ length area2.old) }
    requires few_entries { length index.now.map.entries.now ≤ most_entries }
    ensures { link_left result area2.new area7.new area8.new
        ≡ link_checked (rule_names_in src.now) (rules_in area2.old rules) (map_in index.now.map) area2.old area7.old area8.old }
{
    let entries = index.map.entries.len();
    let lent = Records::new(area2, rules);
    let mut found = [Slot::FREE; Rule::MOST];
    let mut used = [false; MapEntry::MOST];
    let unmapped_count = match_rules_into(src, &lent, index, &mut found, &mut used);
    check_room(area7, unmapped_count, LinkArea::Unmapped)?;
    let marks = &used[..entries];
    let unused_count = count_unused(marks);
    check_room(area8, unused_count, LinkArea::Unused)?;
    write_unused(marks, area8);
    link_rules_by_slots(area2, rules, &index.map, &found);
    let linked = Records::new(area2, rules);
    write_unlinked(&linked, area7);
    Ok(Linked {
        unmapped_count,
        unused_count,
    })
}

// The ids of a sheet's named rules by a map of names.
pub fn set_rule_ids_spanned(
    src: &[u8],
    area1: &[u8],
    area2: &mut [u8],
    area3: &[u8],
    area4: &[u8],
    area5: &[u8],
    counts: &[u16; 6],
    names: &[u8],
    entries: &[u8],
    area7: &mut [u8],
    area8: &mut [u8],
) -> Result<Linked, LinkError>
    ensures { link_left result area2.new area7.new area8.new
        ≡ link_call (sheet_in src.now area1.now area2.old area3.now area4.now area5.now counts.now) names.now entries.now area7.old area8.old }
{
    let sheet = Sheet {
        source: src,
        states: area1,
        rules: area2,
        entries: area3,
        text: area4,
        expected: area5,
        counts,
    };
    if !check(sheet) {
        return Err(LinkError::BrokenSheet);
    }
    let rules = sheet.sizes().rules;
    let mut slots = [Slot::FREE; SLOTS];
    let Some(map) = check_map(names, entries, &mut slots) else {
        return Err(LinkError::BrokenMap);
    };
    let index = NameIndex { map, slots: &slots };
    link_checked(src, area2, rules, &index, area7, area8)
}
