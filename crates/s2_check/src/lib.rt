//! The checker: an input of a script and an output, judged.
#![tactic(auto)]

mod answers;
mod checking;
mod inputs;
mod laws;
#[cfg(test)]
mod tests;

pub use answers::Checked;
pub use checking::check_call;
pub use inputs::split;
pub use laws::outputs_are_whole;
