// The recorded answers of the parse call (compare/FORMAT.md): reading them, and comparing with them what a call left.
#![tactic(auto)]

pub mod compared;
pub mod reader;
pub mod source;
