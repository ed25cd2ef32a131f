// A sheet's bytes, handed in by the host: the sheet check, and the pattern of a rule (01, Linking and Areas, 4).
#![tactic(auto)]

ghost use Rattle.std.specs.Prelude.{◌≡◌};
ghost use Rattle.sheet_check.specs.SheetCheck.{sizes_of, decoded};
ghost use Rattle.sheet_check.specs.Phrases.{lent_sheet, GoodSizes};

pub mod check;
pub mod pattern;

use area::list::Records;
use area::{Expected, Rule, State};

// What a host hands in as a sheet: the source, areas 1 to 5, and the counts of the areas. It has no `new`: of seven arguments the first six would
// all be slices of bytes, told apart by their place alone, and here each has its name. The text of a rule is of the source or of area 4: while it
// is kept, the host may write the others, so that these have a lifetime of their own.
#[derive(Clone, Copy)]
pub struct Sheet<'a, 'b> {
    pub source: &'a [u8],
    pub states: &'b [u8],
    pub rules: &'b [u8],
    pub entries: &'b [u8],
    pub text: &'a [u8],
    pub expected: &'b [u8],
    pub counts: &'b [u16; 6],
}

// The lengths of the source and of areas 1 to 5, and the counts of the areas. They are handed on by value, so that products of counts are
// known to fit.
#[derive(Clone, Copy)]
pub struct Sizes {
    pub source: usize,
    pub area1: usize,
    pub area2: usize,
    pub area3: usize,
    pub area4: usize,
    pub area5: usize,
    pub states: u16,
    pub rules: u16,
    pub entries: u16,
    pub text: u16,
    pub expected: u16,
}

impl<'b> Sheet<'_, 'b> {
    pub fn sizes(self) -> Sizes
        ensures { result ≡ sizes_of (lent_sheet self.entry) }
    {
        Sizes {
            source: self.source.len(),
            area1: self.states.len(),
            area2: self.rules.len(),
            area3: self.entries.len(),
            area4: self.text.len(),
            area5: self.expected.len(),
            states: self.counts[0],
            rules: self.counts[1],
            entries: self.counts[2],
            text: self.counts[3],
            expected: self.counts[4],
        }
    }

    // The records of an area, as many as are counted. Of broken sizes an area may be too short for them.
    #[tactic(auto, using(crate::proofs::Sheets::records_of))]
    pub fn state_records(self) -> Records<'b, State>
        requires { GoodSizes self }
        ensures { result ≡ (decoded (lent_sheet self.entry)).states }
    {
        Records::new(self.states, self.sizes().states)
    }

    #[tactic(auto, using(crate::proofs::Sheets::records_of))]
    pub fn rule_records(self) -> Records<'b, Rule>
        requires { GoodSizes self }
        ensures { result ≡ (decoded (lent_sheet self.entry)).rules }
    {
        Records::new(self.rules, self.sizes().rules)
    }

    #[tactic(auto, using(crate::proofs::Sheets::records_of))]
    pub fn entry_records(self) -> Records<'b, u16>
        requires { GoodSizes self }
        ensures { result ≡ (decoded (lent_sheet self.entry)).lists }
    {
        Records::new(self.entries, self.sizes().entries)
    }

    #[tactic(auto, using(crate::proofs::Sheets::records_of))]
    pub fn expected_records(self) -> Records<'b, Expected>
        requires { GoodSizes self }
        ensures { result ≡ (decoded (lent_sheet self.entry)).expected }
    {
        Records::new(self.expected, self.sizes().expected)
    }
}
