//! Whether a trace breaks a rule, and which it breaks first.
//!
//! The entries are laid out as the points of the trace in reference order. Then the points are gone
//! through once: each is tested against the rules in the order of their table, and noted in a
//! history of what has happened, which answers what the rules ask.
#![tactic(auto)]

mod refusals;
mod rules;
mod verdicts;

pub use refusals::{Refusal, refusal_of};
pub use verdicts::{Accepted, Verdict, validate};
