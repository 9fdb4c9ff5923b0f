//! The points of a trace, masks and rules, in words.
#![tactic(auto)]

mod commands;
mod counts;
mod digits;
mod elements;
mod entries;
mod masks;
mod names;
mod passes;
mod points;
mod ranges;
mod rules;

pub use counts::push_count;
pub use digits::push_digits;
pub use masks::push_mask;
pub use names::{format_name, push_layout, sharing_name, tiling_name};
pub use points::{kind_name, point_words, push_at, push_number};
pub use rules::sentence;
