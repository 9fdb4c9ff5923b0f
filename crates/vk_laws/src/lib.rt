//! The law that every allowed order of a trace's pieces gives the model's bytes. Beside the laws
//! stand the tests that two crates above need, of which resource bytes are written.
#![tactic(auto)]

mod cache_runs;
mod cached_runs;
mod direct_runs;
mod latest_writes;
mod lifetimes;
mod machine;
mod open_passes;
mod picked_runs;
mod reader;
mod tasks;
mod trace;
mod trace_runs;
mod written;

pub use cache_runs::{cached_runs_go_on, cached_runs_mean_the_trace, new_cells_hold_anything};
pub use cached_runs::{
    cached_premises_can_be_met, cached_runs_are_fresh, cached_runs_are_reached, cached_runs_end,
};
pub use direct_runs::{
    direct_runs_are_fresh, direct_runs_are_runs, direct_runs_go_on, new_memory_holds_anything,
    pieces_stay_inside,
};
pub use latest_writes::{dirty_is_of_the_latest, nodes_go_by_starts, pieces_find_nothing_dirty};
pub use lifetimes::{
    commands_name_live, entries_name_live, pieces_before_have_run, pieces_stay_live,
};
pub use machine::{
    every_order, pieces_suffice, premises_can_be_met, runs_carry_over, whole_commands,
};
pub use open_passes::pieces_stay_off_passes;
pub use picked_runs::picks_are_runs;
pub use reader::{Cache, Copied, Memory, is_done};
pub use tasks::{
    cached_trace_is_fresh, discards_keep_premises, host_reads_the_meaning, is_done_before,
    reads_are_defined, trace_is_cache_free, trace_is_fresh, trace_is_hazard_free,
    trace_is_modelled, trace_is_settled, trace_premises_can_be_met, trace_runs_carry_over,
    traces_run,
};
pub use trace::{accesses_in_order, commands_stay, host_in_order, no_hazard, seen_is_before};
pub use trace_runs::{
    defined_runs_are_allowed, defined_runs_are_fresh, defined_runs_end, defined_runs_follow,
    defined_runs_go_on, offered_are_pieces,
};
pub use written::{
    has_any, has_bytes, has_copied_texel, has_subresource, has_texel, only_if, written_by_host,
};
