//! A trace from its bytes to the bytes of its answer: it is read, judged, replayed where it breaks no rule,
//! and answered.
#![tactic(auto)]

mod replaying;
mod running;

pub use replaying::QueueCaches;
pub use running::{Answer, Status, answer_of, outcome_of, run};
