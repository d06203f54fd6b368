//! Lines of a script without a fault mean something, and what they mean suits their table.
#![tactic(auto)]

mod laws;

pub use laws::faultless_lines_resolve;
