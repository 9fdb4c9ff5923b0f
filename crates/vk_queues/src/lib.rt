//! Reference order: where each point of a trace comes, and which batches wait.
#![tactic(auto)]

mod choosing;
mod laws;
mod lines;
mod orders;
mod pushing;
mod submitted;
mod tallies;
mod waiting;

pub use laws::{commands_are_apart, points_are_new};
pub use orders::{points_after, reference_order};
pub use submitted::Submitted;
pub use waiting::Waiting;
