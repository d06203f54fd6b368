//! The text of scripts: read exactly, and printed so that it reads back as the same script.
#![tactic(auto)]

mod clauses;
mod laws;
mod lines;
mod lists;
mod parts;
mod printing;
mod statements;
#[cfg(test)]
mod tests;

pub use laws::{printed_script_reads_back, spelled_scripts_are_written};
pub use printing::print_script;
pub use s2_reader::{ScriptErr, ScriptFault, ScriptKind, read_script};
