//! Traces as JSON, in the form in which they are read.
#![tactic(auto)]

mod commands;
mod elements;
mod entries;
mod lists;
mod words;

pub use commands::command_json;
pub use entries::{entry_json, trace_json};
pub use lists::submit_json;
