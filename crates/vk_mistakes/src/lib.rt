//! Where the parts of a trace are written in a text; and what is wrong with an input that is no trace:
//! where it is, what is expected there, and what is there.
#![tactic(auto)]

mod commands;
mod entries;
mod finding;
mod forms;
mod mistakes;
mod nesting;
mod objects;
mod places;
mod rows;
mod shapes;

pub use finding::{Mistake, MistakePlace, mistake_of};
pub use nesting::first_nested;
pub use objects::{ObjectsFound, count_objects};
pub use places::{
    InputPlace, end_of, line_and_column, place_of, place_of_member, push_pointer, start_of,
};
