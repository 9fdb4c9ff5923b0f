ghost use Rattle.std.specs.Prelude.{◌≡◌, List, [], false};
ghost use Rattle.vk_model.specs.declared.entry.Entry.{Entry};
ghost use Rattle.vk_model.specs.Run.Runs.{start};
ghost use Rattle.vk_model.specs.World.Bytes.{Byte};
ghost use Rattle.vk_model.specs.Memory.Allocations.{nothing_allocated};
ghost use Rattle.vk_laws.specs.DirectRuns.{bare_memory};
ghost use Rattle.vk_backing.specs.PassAllots.{FulfilsAll};
ghost use Rattle.vk_resources.specs.Allocating.{allotted};
ghost use Rattle.vk_cached_device.specs.LedLate.{LedLate, BeginsLate};

use std::alloc::Global;
use vk_cache_laws::late_runs_go_on;
use vk_device::Device;
use vk_lag::{Lags, Writer};
use vk_model::Config;
use vk_offers::Happenings;
use vk_queues::Waiting;

/// A device whose queues each keep a write-back cache. The newest bytes are in place, as on a `Device`
/// without caches of queues; beside them is kept of each byte whether memory is behind by it, since a
/// queue's cache holds it dirty, and what memory still has.
#[derive(Drop)]
pub struct CachedDevice<'a> {
    pub(crate) alloc: Global,
    /// The device with the newest bytes.
    pub(crate) device: Device<'a>,
    /// The batches that were submitted and not started.
    pub(crate) waiting: Waiting<'a>,
    /// Which dependencies, waits and signals are still to happen.
    pub(crate) happenings: Happenings<'a>,
    /// The commands that were started, by their nodes.
    pub(crate) writers: Vec<Writer>,
    /// The bytes that memory is behind by.
    pub(crate) lags: Lags,
    /// How many entries were applied.
    pub(crate) count: usize,
    /// Whether an entry has met `NoMemory`.
    pub(crate) failed: bool,
}

impl<'a> CachedDevice<'a> {
    /// A device with heaps of these sizes, without resources. It takes no memory.
    pub fn new(alloc: Global, config: Config) -> CachedDevice<'a>
        ensures led { BeginsLate result }
        // Nothing is allocated on it.
        ensures allocated { FulfilsAll (allotted result.device.resources) result.device.passes (nothing_allocated config) }
        ensures works { result.failed ≡ false }
    {
        late_runs_go_on();
        CachedDevice {
            alloc,
            device: Device::new(alloc, config),
            waiting: Waiting::new(alloc),
            happenings: Happenings::new(alloc),
            writers: Vec::new(alloc),
            lags: Lags::new(alloc),
            count: 0,
            failed: false,
        }
    }

    /// The device with the newest bytes: what its queues and the host see.
    pub fn device(&self) -> &Device<'a>
        ensures { result.now ≡ self.now.device }
    {
        &self.device
    }

    /// The bytes that memory is behind by.
    pub fn lags(&self) -> &Lags
        ensures { result.now ≡ self.now.lags }
    {
        &self.lags
    }
}
