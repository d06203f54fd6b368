//! Scripts built from their lines: names become places, literals become values.
#![tactic(auto)]

mod builders;
mod conditions;
mod each;
mod laws;
mod options;
mod selects;
mod sets;
mod statements;
mod tables;

pub use builders::Builder;
pub use laws::one_meaning;
pub use s2_pred::Unbuilt;
