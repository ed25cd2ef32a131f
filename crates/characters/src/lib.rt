// Characters: the classes of a byte, whitespace and line ends, and well-formed UTF-8.
#![tactic(auto)]

pub mod walk; // walks over positions, by a test that is handed in
pub mod class; // one table of 256 masks
pub mod whitespace; // whitespace characters and line ends at a byte offset
pub mod utf8; // well-formed UTF-8
