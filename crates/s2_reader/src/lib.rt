//! The reader of scripts, exact: what bytes spell is what is read, and what is refused has the fault that is named.
#![tactic(auto)]

mod faults;
mod laws;
mod reading;
mod stops;
#[cfg(test)]
mod tests;

pub use faults::{ScriptErr, ScriptFault};
pub use laws::one_script;
pub use reading::read_script;
pub use s2_judge::Kind as ScriptKind;
