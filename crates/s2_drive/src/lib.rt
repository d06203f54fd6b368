//! Scripts of several sessions run in the order of their lines, without threads, on the state of the engine.
#![tactic(auto)]

mod checks;
mod drive;
mod laws;
mod lines;
mod replies;
#[cfg(test)]
mod tests;
mod turns;

pub use checks::are_taken;
pub use drive::drive_call;
pub use laws::runs_in_order_are_right;
