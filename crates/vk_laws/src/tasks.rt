//! The law for pasts: their pieces, host entries and events are tasks of the machine that meet its premises.
ghost use Rattle.vk_laws.specs.Tasks.{TraceHazardFreeLaw, TraceSettledLaw, accesses_of};
ghost use Rattle.vk_laws.specs.TraceBytes.{ReadsDefinedLaw, TraceFreshLaw, TraceModelLaw, TraceWrittenLaw};
ghost use Rattle.vk_laws.specs.Discards.{DiscardsHazardFreeLaw, DiscardsModelLaw};
ghost use Rattle.vk_laws.specs.TraceCaches.{CachedFreshLaw, CachedSettledLaw, CachedWrittenLaw, HostReadLaw, TraceCacheFreeLaw};
ghost use Rattle.vk_laws.specs.TraceRuns.{AllowedIsReached, EachTaskRuns, NeverStuck, TraceGrowthLaw};
ghost use Rattle.vk_laws.specs.TraceExample.{TraceMeetsPremises};
ghost use Rattle.std.specs.Prelude.{List, None, IsTrue, ◌≡◌, ◌↔◌};
ghost use Rattle.vk_model.specs.Trace.Point.{Past};
ghost use Rattle.vk_model.specs.World.Bytes.{Byte};
ghost use Rattle.vk_model.specs.Rules.Table.{fault};
ghost use Rattle.vk_laws.specs.Machine.{Conflict, IsAllowed, IsIn, MayRun, Task};

use crate::machine::{every_order, runs_carry_over};
use crate::trace::{accesses_in_order, commands_stay, host_in_order, no_hazard, seen_is_before};
use vk_model::{
    before_is_order, before_is_path, growth_keeps, no_fault_is_unbroken, order_is_structured,
    pieces_are_byte_writes, pieces_write_apart,
};

/// In every allowed run of the pieces, host entries and events of a past without a fault: when a piece or
/// host entry may come next, of those whose accesses meet its own the earlier ones are done and the later
/// ones aren't.
pub fn trace_is_settled()
    ensures { TraceSettledLaw }
{
    pieces_are_byte_writes();
    accesses_in_order();
}

/// In a past without a fault accesses of different nodes that conflict are ordered, and the pieces of one
/// command don't meet: the first premise of the law of the machine.
pub fn trace_is_hazard_free()
    ensures { TraceHazardFreeLaw }
{
    no_fault_is_unbroken();
    pieces_are_byte_writes();
    pieces_write_apart();
    accesses_in_order();
}

/// The world's bytes before each node of a past without a fault are a model of its tasks: the premise of
/// the law of the machine that says what the bytes should be.
pub fn trace_is_modelled()
    ensures { TraceModelLaw }
{
    no_fault_is_unbroken();
    pieces_are_byte_writes();
    pieces_write_apart();
}

/// In a past without a fault the model defines each byte that a host read reads.
pub fn reads_are_defined()
    ensures { ReadsDefinedLaw }
{
    no_fault_is_unbroken();
    pieces_are_byte_writes();
    pieces_write_apart();
}

/// In every allowed run of a past without a fault, where nothing has a cache: what a piece or host entry
/// reads is the model's (`fresh`), and so is what was written last (`written`).
pub fn trace_is_fresh()
    ensures fresh { TraceFreshLaw }
    ensures written { TraceWrittenLaw }
{
    trace_is_hazard_free();
    trace_is_modelled();
    every_order();
}

/// What the law of the machine asks of a past without a fault where there are caches: that it is free of
/// hazards (`hazard_free`) and modelled (`modelled`) also where invalidations forget, and that its caches
/// are in order (`cache_free`).
fn caching_premises()
    ensures hazard_free { DiscardsHazardFreeLaw }
    ensures modelled { DiscardsModelLaw }
    ensures cache_free { TraceCacheFreeLaw }
{
    no_fault_is_unbroken();
    pieces_are_byte_writes();
    pieces_write_apart();
    before_is_path();
    before_is_order();
    commands_stay();
    no_hazard();
    seen_is_before();
    host_in_order();
    growth_keeps();
    accesses_in_order();
}

/// Where invalidations may forget what the host wrote to cached memory and didn't flush, a past without a
/// fault is free of hazards still (`hazard_free`), and modelled (`modelled`).
pub fn discards_keep_premises()
    ensures hazard_free { DiscardsHazardFreeLaw }
    ensures modelled { DiscardsModelLaw }
{
    caching_premises();
}

/// In an ordered past without a fault what one queue or the host wrote another reads only when it was
/// made visible to it, and overwrites only when it was made available: the premise of the law of the
/// machine on caches.
pub fn trace_is_cache_free()
    ensures { TraceCacheFreeLaw }
{
    caching_premises();
}

/// In every allowed run of an ordered past without a fault, where the host and each queue have a cache and
/// invalidations may forget: when a piece or host entry may come next, of the accesses that meet its own
/// the earlier ones are done and the later ones aren't (`settled`), and what it reads is the model's
/// (`fresh`); and so is what was written last (`written`).
pub fn cached_trace_is_fresh()
    ensures settled { CachedSettledLaw }
    ensures fresh { CachedFreshLaw }
    ensures written { CachedWrittenLaw }
{
    discards_keep_premises();
    trace_is_cache_free();
    every_order();
}

/// In every allowed run of an ordered past without a fault, through caches of the host and of each queue,
/// a host read that may come next reads what a trace of these points means.
pub fn host_reads_the_meaning()
    ensures { HostReadLaw }
{
    reads_are_defined();
    cached_trace_is_fresh();
}

/// Each allowed order of tasks leads to a reached state (`reached`); every task of a past has an allowed
/// run after which it may come next (`next`); and while some task isn't done, some task may come next
/// (`never_stuck`).
pub fn traces_run()
    ensures reached { AllowedIsReached }
    ensures next { EachTaskRuns }
    ensures never_stuck { NeverStuck }
{
    before_is_order();
}

/// What a run of a past has reached it has reached in each longer past without a fault, too.
pub fn trace_runs_carry_over()
    ensures { TraceGrowthLaw }
{
    no_fault_is_unbroken();
    before_is_path();
    before_is_order();
    growth_keeps();
    runs_carry_over();
}

/// There is a trace that breaks no rule, and a run of it in another order than that of submission after
/// which a host read through a cache may come next, and then reads the model's byte.
pub fn trace_premises_can_be_met()
    ensures { TraceMeetsPremises }
{
    before_is_order();
    order_is_structured();
    cached_trace_is_fresh();
}

/// Whether a piece or host entry of another node of a past without a fault, whose access conflicts with
/// that of one that may come next, is done: by the numbers of their nodes.
pub fn is_done_before(other: usize, next: usize) -> bool
    ensures { (all : Past) (done : List Task) (s n : Task) (c : Byte) → fault all ≡ None → IsAllowed (accesses_of all) done → MayRun (accesses_of all) done n
        → s.node ≡ other → n.node ≡ next → (other ≡ next → ⊥) → Conflict (accesses_of all) s n c → Conflict (accesses_of all) n s c → IsTrue result ↔ IsIn s done }
{
    trace_is_settled();
    other < next
}
