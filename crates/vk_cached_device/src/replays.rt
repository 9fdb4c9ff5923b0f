ghost use Rattle.std.specs.Prelude.{◌≡◌, length, IfOk, IfErr, MatchOption, None, false};
ghost use Rattle.vk_model.specs.World.Meaning.{meaning};
ghost use Rattle.vk_model.specs.Rules.Table.{first_fault};
ghost use Rattle.vk_device.specs.Led.{IsSoundTrace};
ghost use Rattle.vk_device.specs.declared.applied.ApplyError.TheVariants.{NoMemory};
ghost use Rattle.vk_cached_device.specs.Replays.{EndsLate};

use crate::device::CachedDevice;
use std::alloc::Global;
use vk_device::{Applied, ApplyError};
use vk_laws::{defined_runs_follow, direct_runs_are_runs, picks_are_runs};
use vk_model::{Config, Entry, Scheduler, Sequence, parts_follow};
use vk_validate::Accepted;

/// What a trace gave on a device whose queues have caches.
#[derive(Drop)]
pub struct CachedReplay<'a> {
    /// For each entry that read, in order, its number and the bytes.
    pub reads: Sequence<(usize, Sequence<u8>)>,
    /// The entry whose allocation found no room, where one did; the entries from it on were not applied.
    pub stop: Option<usize>,
    /// The device after the entries that were applied.
    pub device: CachedDevice<'a>,
}

/// Applies the entries of an accepted trace to a new device whose queues have caches, up to the first that
/// finds no room. The only error is `NoMemory`.
pub fn replay_through_caches<'a, S: Scheduler>(
    alloc: Global,
    accepted: &Accepted<'a>,
    config: Config,
    sched: &mut S,
) -> Result<CachedReplay<'a>, ApplyError>
    ensures sound { IfOk result (λ _. first_fault accepted.now ≡ None) }
    // The reads are what the trace means, up to the stop where there is one.
    ensures meaning { IfOk result (λ r. MatchOption r.stop
        (r.reads ≡ meaning accepted.now (length accepted.now)) (λ n. r.reads ≡ meaning accepted.now n)) }
    // The device has what the entries that were applied allocate; it stops where the next entry finds
    // no room there, and nowhere else; and what the scheduler picked has led to it, through caches of
    // queues.
    ensures stop { IfOk result (λ r. EndsLate S.answer S.next config accepted.now r.stop (S.held sched.old) r.device (S.held sched.new)) }
    // The device has not failed.
    ensures works { IfOk result (λ r. r.device.failed ≡ false) }
    ensures error { IfErr result (λ f. f ≡ NoMemory) }
{
    replay_entries(alloc, accepted.entries(), config, sched)
}

/// The same for entries that break no rule.
fn replay_entries<'a, S: Scheduler>(
    alloc: Global,
    entries: &'a [Entry],
    config: Config,
    sched: &mut S,
) -> Result<CachedReplay<'a>, ApplyError>
    requires { IsSoundTrace entries.now }
    ensures meaning { IfOk result (λ r. MatchOption r.stop
        (r.reads ≡ meaning entries.now (length entries.now)) (λ n. r.reads ≡ meaning entries.now n)) }
    ensures stop { IfOk result (λ r. EndsLate S.answer S.next config entries.now r.stop (S.held sched.old) r.device (S.held sched.new)) }
    ensures works { IfOk result (λ r. r.device.failed ≡ false) }
    ensures error { IfErr result (λ f. f ≡ NoMemory) }
{
    defined_runs_follow();
    direct_runs_are_runs();
    picks_are_runs();
    parts_follow();
    let mut device = CachedDevice::new(alloc, config);
    let mut reads = Vec::new(alloc);
    for (index, entry) in entries.iter().enumerate() {
        match device.apply(entry, sched)? {
            Applied::Done => {}
            Applied::Bytes(bytes) => reads.push((index, bytes))?,
            Applied::NoRoom => {
                return Ok(CachedReplay {
                    reads: Sequence::new(reads),
                    stop: Some(index),
                    device,
                });
            }
        }
    }
    Ok(CachedReplay {
        reads: Sequence::new(reads),
        stop: None,
        device,
    })
}
