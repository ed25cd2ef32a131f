// The rules section: its lines, their patterns, and the records of the rules (01, Rules).
#![tactic(auto)]

pub mod areas; // the areas that the section writes
mod pattern; // the pattern of a rule, and the rule's record
mod line; // a line of the rules section
pub mod lines; // the rules section

// How many rules, list entries and bytes of rewritten text there are.
#[derive(Clone, Copy, Default)]
pub struct SheetCounts {
    pub rules: u16,
    pub entries: u16,
    pub text: u16,
}

// The same with the number of fault spans.
#[derive(Clone, Copy, Default)]
pub struct RuleCounts {
    pub sheet: SheetCounts,
    pub faults: u16,
}
