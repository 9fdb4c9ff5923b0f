//! What is known of a refused trace in words, as lines of a text and as members of an object: the fact
//! that is reported of the rule, the links of a hazard, what the rule finds, and why; and what Vulkan says
//! there: identifiers of valid usage, the name of a hazard, and what it has that isn't judged here.
#![tactic(auto)]

mod causes;
mod either_way;
mod facts;
mod findings;
mod identifier_tables;
mod identifiers;
mod in_vulkan;
mod items;
mod known;
mod layouts;
mod links;
mod measure_words;
mod measured;
mod memory;
mod numbers;
mod objects;
mod overlap_words;
mod pass_states;
mod pass_words;
mod points;
mod quoting;
mod reported;
mod state_words;
mod stated;
mod synchronization;
mod transfers;
mod values;

pub use causes::{cause_lines, cause_member};
pub use either_way::{either_way_line, either_way_member};
pub use facts::{fact_line, fact_member, points_named};
pub use findings::{finding_line, finding_member};
pub use identifiers::{hazard_name, identifiers_of, push_section};
pub use in_vulkan::{is_unknown_here, right_in_vulkan};
pub use links::{links_line, links_member};
pub use quoting::push_quoted;
pub use reported::values_member;
