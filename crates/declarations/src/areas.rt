// The areas of the declarations, which the section is lent for writing, with the counts of their records. Each function that takes them says that they
// stay the areas that were lent.
ghost use Rattle.std.specs.Prelude.{◌≡◌};
ghost use Rattle.area.specs.Contents.{state_format, contents, Held};

use crate::DeclarationCounts;
use area::State;
use area::list::Records;

#[derive(Drop)]
pub struct DeclarationAreas<'a> {
    pub states: &'a mut [u8],
    pub expected: &'a mut [u8],
    pub faults: &'a mut [u8],
    pub counts: DeclarationCounts,
}

impl DeclarationAreas<'_> {
    // The states, for reading.
    pub fn state_records(&self) -> Records<State>
        requires { Held state_format self.now.states.now self.now.counts.names.states }
        ensures { result ≡ contents state_format self.now.states.now self.now.counts.names.states }
    {
        Records::new(self.states, self.counts.names.states)
    }
}
