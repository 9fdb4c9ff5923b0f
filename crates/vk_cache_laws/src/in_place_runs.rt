//! How runs through caches go on for a device that keeps bytes in place.
ghost use Rattle.vk_cache_laws.specs.InPlaceRuns.{BytesAreThemselves, EntriesGoOnInPlace, InPlaceRunsBegin, LongerTracesGoOnInPlace, NewBytesHoldAnything, PartsGoOnInPlace, PiecesGoOnInPlace, TouchesGoOnInPlace};

use crate::in_place::{caches_work_in_place, entries_come_in_place, pieces_run_in_place};
use vk_laws::{
    cached_runs_go_on, cached_runs_mean_the_trace, direct_runs_go_on, new_cells_hold_anything,
    new_memory_holds_anything, pieces_stay_inside,
};

/// A run through caches begins with memory that is behind nowhere (`begins`), and goes on in place: by
/// pieces (`pieces`), entries (`entries`), parts of an open pass (`parts`) and what a queue's cache does
/// by itself (`touches`). It is a run of each longer trace (`longer`), of the same bytes (`same`), and of
/// any bytes where no resource was made (`new`).
pub fn in_place_runs_go_on()
    ensures begins { InPlaceRunsBegin }
    ensures pieces { PiecesGoOnInPlace }
    ensures entries { EntriesGoOnInPlace }
    ensures parts { PartsGoOnInPlace }
    ensures touches { TouchesGoOnInPlace }
    ensures longer { LongerTracesGoOnInPlace }
    ensures new { NewBytesHoldAnything }
    ensures same { BytesAreThemselves }
{
    direct_runs_go_on();
    cached_runs_go_on();
    cached_runs_mean_the_trace();
    new_memory_holds_anything();
    new_cells_hold_anything();
    pieces_stay_inside();
    caches_work_in_place();
    pieces_run_in_place();
    entries_come_in_place();
}
