//! What the tokens of a line of text hold: names are words, and texts are texts.
#![tactic(auto)]

mod laws;

pub use laws::tokens_are_clean;
