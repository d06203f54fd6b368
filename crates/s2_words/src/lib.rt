//! The words of the program: which mode they ask for, or help.
#![tactic(auto)]

mod modes;
mod parse;

pub use modes::{Asked, Mode, WordsFault};
pub use parse::words;

#[cfg(test)]
mod tests;
