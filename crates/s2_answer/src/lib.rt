//! What a SELECT answers over the rows of a table, and whether what a statement writes fits its table.
#![tactic(auto)]

mod answers;
mod checks;
mod found;
#[cfg(test)]
mod tests;

pub use answers::answer;
pub use checks::stmt_suits;
