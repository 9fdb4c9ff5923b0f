//! How runs through caches go on for a device that keeps bytes in place, and which command wrote each
//! byte that memory is behind by.
ghost use Rattle.vk_cache_laws.specs.LateRuns.{EntriesGoOnLate, LateBytesAreThemselves, LateRunsBegin, LongerTracesGoOnLate, NewBytesAreNotLate, PartsGoOnLate, PiecesGoOnLate, TouchesGoOnLate};

use crate::in_place::{caches_work_in_place, entries_come_in_place, pieces_run_in_place};
use crate::in_place_runs::in_place_runs_go_on;
use vk_laws::{cached_runs_go_on, cached_runs_mean_the_trace, pieces_stay_inside};
use vk_model::{before_is_order, before_is_path, growth_keeps, no_fault_is_sound};

/// A run through caches begins with memory that is behind nowhere (`begins`), and goes on in place: by
/// pieces (`pieces`), entries (`entries`), parts of an open pass (`parts`) and what a queue's cache does
/// by itself (`touches`). What happens makes memory catch up with what earlier commands of the queue
/// wrote. It is a run of each longer trace (`longer`), of the same bytes (`same`), and of any bytes where
/// no resource was made (`new`).
pub fn late_runs_go_on()
    ensures begins { LateRunsBegin }
    ensures pieces { PiecesGoOnLate }
    ensures entries { EntriesGoOnLate }
    ensures parts { PartsGoOnLate }
    ensures touches { TouchesGoOnLate }
    ensures longer { LongerTracesGoOnLate }
    ensures new { NewBytesAreNotLate }
    ensures same { LateBytesAreThemselves }
{
    no_fault_is_sound();
    growth_keeps();
    before_is_path();
    before_is_order();
    cached_runs_go_on();
    cached_runs_mean_the_trace();
    pieces_stay_inside();
    caches_work_in_place();
    pieces_run_in_place();
    entries_come_in_place();
    in_place_runs_go_on();
}
