//! The rows of a program in C that performs a trace: a name and words for each point, and their text.
#![tactic(auto)]

mod batches;
mod bytes;
mod commands;
mod elements;
mod entries;
mod items;
mod laws;
mod names;
mod regions;
mod steps;
mod texts;
mod words;

pub use bytes::push_bytes;
pub use laws::{names_differ, rows_tell_points};
pub use names::{BatchName, EntryName, ItemName, RowName};
pub use steps::{Step, push_steps};
pub use words::{Call, Row, Word};
