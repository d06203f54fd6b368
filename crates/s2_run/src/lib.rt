//! The top call: the words are read, a script is run or an output is judged, and the answer is written.
#![tactic(auto)]

mod endings;
mod kinds;
mod outputs;
mod pieces;
#[cfg(test)]
mod tests;
mod texts;
mod top;

pub use endings::Ending;
pub use pieces::Text;
pub use s2_check::check_call;
pub use s2_drive::drive_call;
pub use top::s2table;
