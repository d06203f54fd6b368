//! The tokens of a line.
#![tactic(auto)]

mod faults;
mod laws;
mod lexing;
mod literals;
mod printing;
mod types;
mod words;

pub use faults::Fault;
pub use laws::each_token_is_the_longest;
pub use lexing::{first_token, tokens};
pub use literals::literal;
pub use printing::{print_tokens, printed_tokens_are_lexed};
pub use types::{Bytes, Keyword, Literal, Symbol, Token};
pub use words::is_name;

#[cfg(test)]
mod tests;
