//! Laws of runs through the write-back caches of queues: what the host reads in them.
#![tactic(auto)]

mod in_place;
mod in_place_runs;
mod late_runs;
mod staying;
mod through;

pub use in_place::{caches_work_in_place, entries_come_in_place, pieces_run_in_place};
pub use in_place_runs::in_place_runs_go_on;
pub use late_runs::late_runs_go_on;
pub use staying::writes_stay_in_caches;
pub use through::{cached_picks_are_runs, cached_runs_read_the_meaning};
