//! A trace as a program in C: the calls of its points in reference order, and the bytes that its reads
//! have to give.
#![tactic(auto)]

mod planning;
mod running;
mod texts;

pub use planning::{Plan, plan_of};
pub use running::{Emitted, Program, Wanted, program_of, run};
pub use texts::program_text;
pub use vk_row_text::Step;
