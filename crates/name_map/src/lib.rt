// A map of names, from which the link takes ids: its entries, the map check, and an index of the names (01, Linking).
#![tactic(auto)]

mod map; // the entry of a name, and the tests that ask all entries
mod home; // where the search for a name begins
pub mod index; // the index of names, and the map check

ghost use Rattle.std.specs.Prelude.{◌≡◌, ◌+◌};
ghost use Rattle.text.specs.Range.{same_bytes};
ghost use Rattle.name_map.specs.Map.{map_entry_at, entry_of, name_inside};

use area::read_field;
use text::range::{part, same_bytes};

// Where an entry's name stands in the names of the map, and its id.
#[derive(Clone, Copy, Debug, PartialEq, Eq)]
pub struct MapEntry {
    pub name_from: u16,
    pub name_length: u16,
    pub id: u16,
}

// An entry is read from its bytes. A map is the host's and no area of a sheet, so that none is ever written, and `Record` asks more than a map has.
impl From<[u8; MapEntry::WIDTH]> for MapEntry {
    ghost from_gives = { λ bytes entry. entry ≡ map_entry_at bytes 0 };

    #[tactic(auto, unfolding(crate::specs::Map::map_entry_at, crate::specs::Map::map_entry_of, area::specs::Bytes::field_from))]
    fn from(bytes: [u8; MapEntry::WIDTH]) -> MapEntry {
        MapEntry {
            name_from: read_field(&bytes, 0),
            name_length: read_field(&bytes, 2),
            id: read_field(&bytes, 4),
        }
    }
}

impl MapEntry {
    // How many bytes an entry has.
    pub const WIDTH: usize = 6;

    // How many entries a map may have: the map check says so, and `NameMap` takes any number.
    pub const MOST: usize = 2048;

    // Where its name ends.
    fn name_end(self) -> usize
        ensures { result ≡ self.name_from + self.name_length }
    {
        self.name_from as usize + self.name_length as usize
    }

    // Its name. The range of an entry not yet checked may pass the end of the names, and is cut there.
    #[tactic(auto, unfolding(crate::specs::Map::entry_of))]
    fn name(self, names: &[u8]) -> &[u8]
        ensures { result.now ≡ (entry_of names.now self).name }
    {
        part(names, self.name_from as usize, self.name_end())
    }

    pub fn has_name(self, names: &[u8], name: &[u8]) -> bool
        ensures { result ≡ same_bytes (entry_of names.now self).name name.now }
    {
        same_bytes(self.name(names), name)
    }

    // Whether its name lies inside n bytes of names.
    #[tactic(auto, unfolding(crate::specs::Map::name_inside))]
    fn name_inside(self, n: usize) -> bool
        ensures { result ≡ name_inside n self }
    {
        self.name_end() <= n
    }
}

// A map as it is lent: the names, and the bytes of the entries that say where a name stands in them.
#[derive(Drop)]
pub struct NameMap<'a> {
    pub names: &'a [u8],
    pub entries: &'a [[u8; MapEntry::WIDTH]],
}
