//! The commands whose batches were started, and which of their pieces may run next; and which
//! dependencies, waits and signals happen, as points come and pieces have run.
#![tactic(auto)]

mod counts;
mod happenings;
mod laws;
mod offers;

pub use happenings::Happenings;
pub use laws::{nothing_happens, offers_agree, points_are_on_queues, points_come_next, waits_go};
pub use offers::{Offers, run_at};
pub use vk_events::{Event, Range};
pub use vk_sync::Piece;
