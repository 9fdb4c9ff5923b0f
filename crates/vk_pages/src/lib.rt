//! What the JSON on the pages of definitions and of worked pairs means: each text is read as the trace
//! of which `vk_rows` proves what it reads or breaks, so that page and proof can't differ.
#![tactic(auto)]

mod pairs;

pub use pairs::{
    access, commands, example, hazards_misread, misread, objects, order, runs_misread,
};
