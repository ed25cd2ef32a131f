// Reading text: scanners and ranges.
#![tactic(auto)]

pub mod scan; // scanners, named as in the Rust where that has them
pub mod range; // equal ranges, and a word that stands at an offset
