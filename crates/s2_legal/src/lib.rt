//! The judge of outcomes: whether a run's history and replies are those of some legal run of its script, and else the first fault.
#![tactic(auto)]

mod answers;
mod fits;
#[cfg(test)]
mod generated;
mod index;
mod judge;
mod keys;
mod laws;
mod opens;
mod replies;
mod same;
mod sessions;
mod shapes;
#[cfg(test)]
mod slowly;
mod tables;
#[cfg(test)]
mod tests;
mod verdicts;
mod world;

pub use answers::LegalAnswer;
pub use judge::legal;
pub use laws::judged_once;
pub use shapes::{is_built, is_whole};
