// A map: the entry of a name, and the tests of the map check that ask all entries (01, Linking, and Numbers given at the counter, 7).
ghost use Rattle.std.specs.Prelude.{◌≡◌, ◌<◌, ◌==◌, length, get_or};
ghost use Rattle.area.specs.Lists.{all};
ghost use Rattle.name_map.specs.Map.{map_format, read_each, nth, find_entry, found_entry, name_inside};
ghost use Rattle.name_map.specs.Phrases.{map_in};

use crate::{MapEntry, NameMap};

impl<'a> NameMap<'a> {
    // Entry j, read from its bytes.
    pub fn entry(&self, j: usize) -> MapEntry
        requires { j < length self.now.entries.now }
        ensures { result ≡ get_or (read_each self.now.entries.now) j map_format.blank }
    {
        MapEntry::from(self.entries[j])
    }

    // The first entry of that name.
    pub fn find_entry(&self, name: &[u8]) -> Option<usize>
        ensures { result ≡ found_entry (map_in self.now) name.now }
    {
        self.entries.iter().position(|bytes| { MapEntry::from(*bytes).has_name(self.names, name) })
    }

    // ---- the map check

    // Whether each entry's name lies inside n bytes of names, as many as the caller says. Each is asked, with no branch, for mostly all of them pass.
    pub fn names_inside(&self, n: usize) -> bool
        ensures { result ≡ all (name_inside n) (read_each self.now.entries.now) }
    {
        self.entries.iter().fold(true, |inside, bytes| {
            inside & MapEntry::from(*bytes).name_inside(n)
        })
    }

    // Whether entry j is the first of its name.
    #[tactic(auto, using(crate::proofs::Maps::first_compared))]
    pub fn is_first(&self, j: usize) -> bool
        requires { j < length self.now.entries.now }
        ensures { result ≡ (find_entry (map_in self.now) (nth (map_in self.now) j).name == j) }
    {
        self.find_entry(self.entry(j).name(self.names)) == Some(j)
    }
}
