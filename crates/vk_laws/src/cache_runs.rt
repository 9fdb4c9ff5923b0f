//! How runs through caches go on: laws for a device whose queues each have a cache.
ghost use Rattle.vk_laws.specs.CacheRuns.{CachedRunsAreOfTheTrace, CachedRunsBegin, CachedRunsLeaveTheMeaning, CachedRunsReadTheTrace, CachedStepsGoOn, CellsAreTheirBytes, LongerTracesCarryOn, NewCellsHoldAnything, NothingHappensAlone, QueuesSeeWhatTheyWrote, TouchesGoOn};

use crate::cached_runs::{cached_runs_are_fresh, cached_runs_are_reached, cached_runs_end};
use crate::latest_writes::nodes_go_by_starts;
use vk_model::{
    before_is_order, before_is_path, growth_keeps, no_fault_is_sound, pieces_are_byte_writes,
};

/// A run through caches begins with any values in memory and empty caches (`begins`), and goes on by
/// each step that is allowed: what happens then writes back and drops what it does by which commands
/// have started (`steps`; `alone` where nothing happens). A queue's cache may touch bytes at any time
/// (`touches`). It is a run of each longer trace, too (`longer`), and of the same bytes (`same`).
pub fn cached_runs_go_on()
    ensures begins { CachedRunsBegin }
    ensures steps { CachedStepsGoOn }
    ensures alone { NothingHappensAlone }
    ensures touches { TouchesGoOn }
    ensures longer { LongerTracesCarryOn }
    ensures same { CellsAreTheirBytes }
{
    nodes_go_by_starts();
}

/// A run through caches of a trace without a fault leads to all bytes that are the same where
/// resources were made, and of which no cache holds anything elsewhere: so a resource that is made
/// next may lie where any bytes are.
pub fn new_cells_hold_anything()
    ensures { NewCellsHoldAnything }
{
    no_fault_is_sound();
    growth_keeps();
    before_is_path();
    before_is_order();
    pieces_are_byte_writes();
}

/// A run through caches is an allowed run (`runs`). In one of a trace without a fault, what the next
/// entry reads is what the trace means (`reads`); of each byte that a piece writes its queue sees the
/// model's value then, where it defines one (`written`); and where nothing may come next each byte has
/// the value that the trace leaves in it, in memory or still dirty in a cache (`meaning`).
pub fn cached_runs_mean_the_trace()
    ensures runs { CachedRunsAreOfTheTrace }
    ensures reads { CachedRunsReadTheTrace }
    ensures written { QueuesSeeWhatTheyWrote }
    ensures meaning { CachedRunsLeaveTheMeaning }
{
    no_fault_is_sound();
    growth_keeps();
    before_is_path();
    before_is_order();
    cached_runs_are_reached();
    cached_runs_are_fresh();
    cached_runs_end();
    nodes_go_by_starts();
}
