//! Runs on memory directly, where only the host may have a cache: laws for a device whose queues have none.
ghost use Rattle.vk_laws.specs.DirectRuns.{DirectRunsAreFresh, DirectRunsAreRuns, DirectRunsAreWritten, DirectRunsBegin, DirectRunsMeanTheTrace, DirectRunsReadMemory, DirectRunsReadTheTrace, EntriesGoOn, LongerTracesGoOn, MemoryIsItsBytes, NewMemoryHoldsAnything, OtherEntriesGoOn, PartsGoOn, PiecesGoOn, PiecesStayInside, UncachedEntriesGoOn};

use crate::cached_runs::{cached_runs_are_fresh, cached_runs_are_reached, cached_runs_end};
use vk_model::{
    before_is_order, before_is_path, growth_keeps, no_fault_is_sound, pieces_are_byte_writes,
};

/// A run on memory directly begins with any values (`begins`), and goes on by a piece that is
/// offered (`pieces`), by the next entry (`entries`; `others` for one that doesn't reach memory, and
/// `uncached` where the host's cache holds nothing), and by a part of an open pass (`parts`). It is
/// a run of each longer trace, too (`longer`), and of memory that has the same bytes (`same`).
pub fn direct_runs_go_on()
    ensures begins { DirectRunsBegin }
    ensures pieces { PiecesGoOn }
    ensures entries { EntriesGoOn }
    ensures others { OtherEntriesGoOn }
    ensures uncached { UncachedEntriesGoOn }
    ensures parts { PartsGoOn }
    ensures longer { LongerTracesGoOn }
    ensures same { MemoryIsItsBytes }
{}

/// A run on memory directly is an allowed run, so what is known of those it has.
pub fn direct_runs_are_runs()
    ensures { DirectRunsAreRuns }
{
    cached_runs_are_reached();
}

/// In a run on memory directly of a trace without a fault: each byte that the next entry reads is
/// defined, and the host sees its value (`fresh`), so that what it reads is what the trace means
/// (`reads`, and `reads_memory` where the host's cache does nothing by itself); a byte that a piece
/// writes has the model's value then, where it defines one (`written`); and where nothing may come
/// next each byte has the value that the trace leaves in it (`meaning`).
pub fn direct_runs_are_fresh()
    ensures fresh { DirectRunsAreFresh }
    ensures reads { DirectRunsReadTheTrace }
    ensures reads_memory { DirectRunsReadMemory }
    ensures written { DirectRunsAreWritten }
    ensures meaning { DirectRunsMeanTheTrace }
{
    no_fault_is_sound();
    growth_keeps();
    before_is_path();
    before_is_order();
    cached_runs_are_fresh();
    cached_runs_end();
    direct_runs_are_runs();
}

/// In an allowed run of a trace without a fault a piece that is offered writes and copies bytes of
/// resources that were made.
pub fn pieces_stay_inside()
    ensures { PiecesStayInside }
{
    no_fault_is_sound();
    growth_keeps();
    before_is_path();
    before_is_order();
    pieces_are_byte_writes();
}

/// A run on memory directly of a trace without a fault leads to any memory that is the same where
/// resources were made: so a resource that is made next may lie where any bytes are.
pub fn new_memory_holds_anything()
    ensures { NewMemoryHoldsAnything }
{
    no_fault_is_sound();
    growth_keeps();
    before_is_path();
    before_is_order();
    pieces_are_byte_writes();
}
