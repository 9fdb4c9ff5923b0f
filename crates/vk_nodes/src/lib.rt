//! Slots of nodes in raw memory.
#![tactic(auto)]

mod block;
mod change;
mod filled;
mod node;
mod nodes;
mod slot;
mod store;

pub use change::Change;
pub use filled::Filled;
pub use node::{Node, RangeState};
pub use nodes::Nodes;
