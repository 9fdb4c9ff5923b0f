//! Which call of a captured program a point of a trace stands for, as a file beside the trace says it;
//! and texts that say it behind the names of points.
#![tactic(auto)]

mod calls;
mod errors;
mod forms;
mod listing;
mod names;
mod parts;
mod placing;
mod reading;

pub use calls::{Call, Calls};
pub use errors::{CallsError, CallsMistake, CallsPlace};
pub use listing::with_calls_member;
pub use placing::with_calls;
pub use reading::read_calls;
