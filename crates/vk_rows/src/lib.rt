//! Worked examples of the definitions: traces with what they read or the first rule that they break,
//! a broken and a corrected trace for each rule, and places, pieces and orders of small cases. All are
//! closed by computation, so a definition that changes its meaning fails here.
#![tactic(auto)]

mod facts;
mod traces;

pub use facts::{
    addresses, limits, linear_blocks, no_room, passes, places, pool_blocks, queue_caches,
    runs_misread, stopping, work,
};
pub use traces::{
    ahead, easily_mistaken, images, misread, objects, pools, queues, rules_of_access,
    rules_of_commands, rules_of_objects, rules_of_order, uploads,
};
