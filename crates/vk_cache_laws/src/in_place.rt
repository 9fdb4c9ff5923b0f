//! Bytes that are kept in place, with what memory still has of those that a queue's cache holds dirty.
ghost use Rattle.vk_cache_laws.specs.InPlace.{EntriesComeInPlace, NodesHappenInPlace, PiecesFindNoLag, PiecesRunInPlace, TouchesGoInPlace};

use vk_laws::{
    cached_runs_are_reached, commands_stay, discards_keep_premises, host_in_order, no_hazard,
    pieces_find_nothing_dirty, seen_is_before, trace_is_cache_free,
};
use vk_model::{
    before_is_order, before_is_path, growth_keeps, no_fault_is_sound, no_fault_is_unbroken,
    order_is_structured, pieces_are_byte_writes,
};

/// What happens, and what caches of queues do by themselves, told in place: memory catches up.
pub fn caches_work_in_place()
    ensures nodes { NodesHappenInPlace }
    ensures touches { TouchesGoInPlace }
{}

/// A piece that is offered in a run of a trace without a fault through caches may run in place (`run`):
/// memory isn't behind in what it writes (`lag`), nor in what it copies, and is behind by what it wrote
/// then.
pub fn pieces_run_in_place()
    ensures run { PiecesRunInPlace }
    ensures lag { PiecesFindNoLag }
{
    pieces_find_nothing_dirty();
}

/// An entry that may come next in such a run has its effect in place: memory isn't behind in what the
/// host writes, or writes back.
pub fn entries_come_in_place()
    ensures { EntriesComeInPlace }
{
    no_fault_is_sound();
    no_fault_is_unbroken();
    order_is_structured();
    pieces_are_byte_writes();
    before_is_path();
    before_is_order();
    commands_stay();
    no_hazard();
    seen_is_before();
    host_in_order();
    growth_keeps();
    discards_keep_premises();
    trace_is_cache_free();
    cached_runs_are_reached();
}
