//! The verdict on a statement, as a plain program over the whole history. The engine calls none of it, and is compared with it.
#![tactic(auto)]

mod changes;
mod holders;
mod keys;
mod refusals;
mod rulings;
#[cfg(test)]
mod tests;

pub use rulings::verdict;
