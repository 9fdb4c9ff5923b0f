ghost use Rattle.std.specs.Prelude.{IfOk};
ghost use Rattle.vk_run.specs.Run.{IsAnswer, Leaves};

use std::alloc::{AllocError, Global};
use vk_cached_device::{CachedReplay, replay_through_caches};
use vk_device::{Replayed, replay};
use vk_model::{Config, Scheduler, parts_follow};
use vk_trace::Outcome;
use vk_validate::Accepted;

/// Whether the queues of the device that replays a trace have caches (Vulkan, "Execution and Memory
/// Dependencies", on availability and visibility operations).
#[derive(Clone, Copy, Debug, PartialEq, Eq)]
pub enum QueueCaches {
    /// What a queue writes is in memory at once.
    Without,
    /// Each queue has a write-back cache of its own: what it writes is in memory when it is made
    /// available, or when the cache writes it back by itself.
    With,
}

/// What the replay of an accepted trace reports, on a device with or without caches of queues: the bytes
/// that the trace means, up to the first entry that finds no room. The only error is want of memory.
pub(crate) fn reported<S: Scheduler>(
    alloc: Global,
    accepted: &Accepted<'_>,
    config: Config,
    caches: QueueCaches,
    sched: &mut S,
) -> Result<Outcome, AllocError>
    ensures answer { IfOk result (IsAnswer config accepted.now) }
    ensures view { IfOk result (λ outcome. Leaves config S.answer S.next accepted.now outcome (S.held sched.old) (S.held sched.new)) }
{
    match caches {
        QueueCaches::Without => replayed(alloc, accepted, config, sched),
        QueueCaches::With => replayed_through_caches(alloc, accepted, config, sched),
    }
}

/// The same without caches of queues.
fn replayed<S: Scheduler>(
    alloc: Global,
    accepted: &Accepted<'_>,
    config: Config,
    sched: &mut S,
) -> Result<Outcome, AllocError>
    ensures answer { IfOk result (IsAnswer config accepted.now) }
    ensures view { IfOk result (λ outcome. Leaves config S.answer S.next accepted.now outcome (S.held sched.old) (S.held sched.new)) }
{
    parts_follow();
    match replay(alloc, accepted, config, sched) {
        Ok(
            Replayed {
                reads,
                stop,
                device: _,
            },
        ) => Ok(Outcome::Reads(reads, stop)),
        Err(_) => Err(AllocError),
    }
}

/// The same with caches of queues.
fn replayed_through_caches<S: Scheduler>(
    alloc: Global,
    accepted: &Accepted<'_>,
    config: Config,
    sched: &mut S,
) -> Result<Outcome, AllocError>
    ensures answer { IfOk result (IsAnswer config accepted.now) }
    ensures view { IfOk result (λ outcome. Leaves config S.answer S.next accepted.now outcome (S.held sched.old) (S.held sched.new)) }
{
    parts_follow();
    match replay_through_caches(alloc, accepted, config, sched) {
        Ok(
            CachedReplay {
                reads,
                stop: stopped_at,
                device: _,
            },
        ) => Ok(Outcome::Reads(reads, stopped_at)),
        Err(_) => Err(AllocError),
    }
}
