//! Outputs: read exactly as they are written, or the first line that no output has.
#![tactic(auto)]

mod changes;
mod expected;
mod faults;
mod forms;
mod heads;
mod laws;
mod lines;
mod lists;
mod outputs;
mod parts;
mod printing;
mod refusals;
mod sessions;
mod stops;
#[cfg(test)]
mod tests;
mod tokens;
mod values;

pub use faults::OutputFault;
pub use forms::OutputLine;
pub use laws::{one_outcome, text_is_lines};
pub use outputs::read_output;
