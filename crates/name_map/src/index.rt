// An index of the entries' names, so that a name is mostly compared with one other and not with all. Each of its slots has the number of an entry or
// is free. A name's search begins at the slot that its bytes give, its home, and goes on slot by slot up to a free one (linear probing); where the
// slots end before that, all names are compared.
ghost use Rattle.std.specs.Prelude.{◌≡◌, ℕ, ◌<◌, ◌≤◌, length, replicate, slice_index_or, Some, None};
ghost use Rattle.area.specs.Phrases.{before, after};
ghost use Rattle.name_map.specs.Map.{most_entries, found_entry};
ghost use Rattle.name_map.specs.Index.{slot_count, entry_in, EntrySlots, Probes, EntryIndexed, EntriesIndexed, EntryIndex};
ghost use Rattle.name_map.specs.Phrases.{map_in, entries_in, MapChecked};

use crate::home::home_of;
use crate::{MapEntry, NameMap};

// How many slots there are. A home is below 4,096, so that few searches come to the end of the slots.
pub const SLOTS: usize = 4608;

// The number of an entry, counted from 1, or 0 where it is free: two bytes, where an `Option<u16>` has four.
#[derive(Clone, Copy, Debug, PartialEq, Eq)]
pub struct Slot(u16);

impl Slot {
    // One that is free.
    pub const FREE: Slot = Slot(0);

    // One that has entry j.
    #[tactic(auto, unfolding(crate::specs::Index::entry_in))]
    pub fn of(j: u16) -> Slot
        requires { j < 65535 }
        ensures { entry_in result ≡ Some j }
    {
        Slot(j + 1)
    }

    // The entry that it has.
    #[tactic(auto, unfolding(crate::specs::Index::entry_in))]
    pub fn entry(self) -> Option<u16>
        ensures { result ≡ entry_in self }
    {
        if self.0 == 0 {
            return None;
        }
        Some(self.0 - 1)
    }
}

// Slots that are all free.
#[tactic(auto, using(crate::proofs::Slots::slots_free))]
pub fn free_slots<const N: usize>() -> [Slot; N]
    ensures { entries_in result ≡ replicate N None }
{
    [Slot::FREE; N]
}

// The entries of slots as options, which take twice the bytes.
pub fn read_slots<const N: usize>(slots: &[Slot; N]) -> [Option<u16>; N]
    ensures { result ≡ entries_in slots.now }
{
    let mut entries = [None; N];
    for k in 0..N {
        entries[k] = slots[k].entry();
    }
    entries
}

// A slot that the search for a name comes to: it is free for the name, or has the entry of that name. Neither is a failure.
#[derive(Clone, Copy)]
enum Probed {
    Free(usize),
    Found(usize),
}

// Where the search for a name comes to. None where the slots end before. While the index is made the slots are those of the first n entries, fewer
// than the map has. It is built into both callers, which saves a link a tenth of its instructions.
#[inline(always)]
fn probe(map: &NameMap, slots: &[Slot; SLOTS], name: &[u8]) -> Option<Probed>
    requires { (p j : ℕ) → slice_index_or (entries_in slots.now) p None ≡ Some j → j < length map.now.entries.now }
    ensures { (n : ℕ) → EntrySlots (map_in map.now) n (entries_in slots.now) → Probes (map_in map.now) n (entries_in slots.now) name.now result }
{
    let home = home_of(name);
    for p in home..SLOTS {
        match slots[p].entry() {
            None => return Some(Probed::Free(p)),
            Some(j) => {
                if map.entry(j as usize).has_name(map.names, name) {
                    return Some(Probed::Found(j as usize));
                }
            }
        }
    }
    None // an entry that has no slot may still have the name
}

// ---- the map check

// Whether entry j is the first of its name, by the slots of those before it. If it is, it gets the free slot that the search came to.
fn index_entry(map: &NameMap, slots: &mut [Slot; SLOTS], j: usize) -> bool
    requires few { length map.now.entries.now ≤ most_entries }
    requires j_bound { j < length map.now.entries.now }
    requires entry_slots { EntrySlots (map_in map.now) j (entries_in slots.old) }
    ensures { EntryIndexed (map_in map.now) j result (entries_in slots.new) }
{
    let name = map.entry(j).name(map.names);
    match probe(map, slots, name) {
        Some(Probed::Free(p)) => {
            slots[p] = Slot::of(j as u16);
            true
        }
        Some(Probed::Found(_)) => false,
        None => map.is_first(j),
    }
}

// Whether no two entries have the same name. If so, the slots are those of all entries. They are lent: as a part of the answer their bytes were
// copied on the way, and a link took an eighth more instructions.
fn index_entries(map: &NameMap, slots: &mut [Slot; SLOTS]) -> bool
    requires few { length map.now.entries.now ≤ most_entries }
    requires free { entries_in slots.old ≡ replicate slot_count None }
    ensures { EntriesIndexed (map_in map.now) result (entries_in slots.new) }
{
    // by `all`, whose closure writes the slots, the proof knew nothing of the slots afterwards
    for j in 0..map.entries.len() {
        if !index_entry(map, slots, j) {
            return false;
        }
    }
    true
}

// The map of a host's names and entries if it passes the map check, and the slots of its entries. Their number first, so that few names are
// compared.
pub fn check_map<'a>(
    names: &'a [u8],
    entries: &'a [u8],
    slots: &mut [Slot; SLOTS],
) -> Option<NameMap<'a>>
    requires { entries_in slots.old ≡ replicate slot_count None }
    ensures { MapChecked names.now entries.now result (entries_in slots.new) }
{
    let (chunks, rest) = entries.as_chunks::<{ MapEntry::WIDTH }>();
    if !rest.is_empty() {
        return None;
    }
    if chunks.len() > MapEntry::MOST {
        return None;
    }
    let map = NameMap {
        names,
        entries: chunks,
    };
    if !map.names_inside(names.len()) {
        return None;
    }
    if index_entries(&map, slots) {
        return Some(map);
    }
    None
}

// ---- the entry of a name

// A map that passed its check, and the slots of its entries.
#[derive(Drop)]
pub struct NameIndex<'a> {
    pub map: NameMap<'a>,
    pub slots: &'a [Slot; SLOTS],
    pub ghost index: { EntryIndex (map_in map) (entries_in slots.now) },
}

impl<'a> NameIndex<'a> {
    // The entry with that name.
    pub fn find(&self, name: &[u8]) -> Option<usize>
        ensures { result ≡ found_entry (map_in self.now.map) name.now }
    {
        match probe(&self.map, self.slots, name) {
            Some(Probed::Free(_)) => None,
            Some(Probed::Found(j)) => Some(j),
            None => self.map.find_entry(name),
        }
    }
}
