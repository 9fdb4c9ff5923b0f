//! A trace as text: from its bytes to its entries, and from an outcome to the text of an answer; and the
//! streams that both go through.
#![tactic(auto)]

mod commands;
mod defrags;
mod entries;
mod errors;
mod images;
mod members;
mod pools;
mod printing;
mod reading;
mod streams;
pub mod text_examples;
mod tokens;
mod watched;

pub use errors::{ReadTraceError, RunError};
pub use printing::{Outcome, text};
pub use reading::read_trace;
pub use streams::{read_all, write_all};
pub use watched::Watched;
