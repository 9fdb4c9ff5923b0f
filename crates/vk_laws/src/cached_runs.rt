//! The allowed runs of the definitions through caches are runs of the machine, so the law speaks of them.
ghost use Rattle.vk_laws.specs.CachedExample.{CachedRunsMeetPremises};
ghost use Rattle.vk_laws.specs.CachedRuns.{CachedHostReads, CachedRunsAreFresh, CachedRunsAreReached, CachedRunsAreRuns, CachedRunsAreWritten, CachedRunsMeanTheTrace};

use crate::tasks::{
    cached_trace_is_fresh, discards_keep_premises, host_reads_the_meaning, trace_is_cache_free,
};
use crate::trace_runs::defined_runs_end;
use vk_model::{
    before_is_order, before_is_path, growth_keeps, no_fault_is_sound, order_is_structured,
    pieces_are_byte_writes,
};

/// Each run through caches that the definitions allow is a run without them (`runs`). And if the trace has
/// no fault it has reached its bytes in the machine (`reached`), by the same pieces and entries in the same
/// order, with events between its steps: all that the law says of reached bytes it says of them.
pub fn cached_runs_are_reached()
    ensures runs { CachedRunsAreRuns }
    ensures reached { CachedRunsAreReached }
{
    no_fault_is_sound();
    growth_keeps();
    before_is_path();
    before_is_order();
    pieces_are_byte_writes();
    discards_keep_premises();
}

/// In every run of a trace without a fault through caches that the definitions allow: a piece that is
/// offered, or an entry that may be applied, sees the model's value of each byte that it reads, through the
/// cache of its queue or of the host (`fresh`); what was written last is the model's to the queue or host
/// that wrote it (`written`); and what a host read reads is what the trace means, whatever its cache takes
/// up or gives back just before (`host_reads`).
pub fn cached_runs_are_fresh()
    ensures fresh { CachedRunsAreFresh }
    ensures written { CachedRunsAreWritten }
    ensures host_reads { CachedHostReads }
{
    no_fault_is_sound();
    growth_keeps();
    before_is_path();
    before_is_order();
    order_is_structured();
    cached_trace_is_fresh();
    host_reads_the_meaning();
    cached_runs_are_reached();
}

/// Where nothing may come next in such a run, each byte has the value that the trace leaves in it, where
/// the model defines one: in memory, or still dirty in a cache.
pub fn cached_runs_end()
    ensures { CachedRunsMeanTheTrace }
{
    pieces_are_byte_writes();
    order_is_structured();
    discards_keep_premises();
    trace_is_cache_free();
    defined_runs_end();
    cached_runs_are_reached();
}

/// There is a trace that breaks no rule, and a run of it through caches in which the host's cache holds an
/// old copy of a byte until an invalidation; then a read may be applied, and sees what a fill wrote.
pub fn cached_premises_can_be_met()
    ensures { CachedRunsMeetPremises }
{}
