//! What the points before a refused one hold: which entry made an id, whether it ended, what was
//! signaled last, and the nodes of the points.

mod creators;
mod doings;
mod nodes;
mod objects;
mod split;
mod until;

pub use creators::Creators;
pub use doings::{Doing, entry_of, latest, live, made, signal_of};
pub use nodes::{all_rows, order_of};
pub use objects::{is_cached, pool_at};
pub use split::{Split, split_of};
pub use until::{at_of, points_until};
