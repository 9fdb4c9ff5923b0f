ghost use Rattle.std.specs.Prelude.{◌≡◌, ◌≤◌, ◌<◌, ◌&&◌, ℕ, IfOk, Some, is_some, not, length, slice_get};
ghost use Rattle.vk_touches.specs.Conflicts.{FoundIn, HasEarlyCommand, IsEarly};
ghost use Rattle.vk_touches.specs.Remembered.{untouched};

use crate::early::{has_early_read, is_early};
use crate::others::OtherTouches;
use crate::reads::LastReads;
use crate::writes::KeptWrite;
use std::alloc::{AllocError, Global};
use std::marker::Model;
use vk_order::NewNode;
use vk_ranges::RangeMap;

/// What each byte of a resource remembers. Contracts see the list of it.
///
/// The last writes by commands are runs of their own, as they often differ where nothing else does,
/// and so are the last reads, so that a read of many bytes that remember different writes is one run.
#[derive(Drop)]
pub struct TouchMap {
    pub(crate) writes: RangeMap<KeptWrite>,
    pub(crate) reads: RangeMap<LastReads>,
    pub(crate) others: RangeMap<OtherTouches>,
}

impl Model for TouchMap {
    ghost use Rattle.std.specs.Prelude.{List};
    ghost use Rattle.vk_touches.specs.declared.touches.LastTouches.{LastTouches};

    ghost Value = { List LastTouches };

    ghost use Rattle.vk_touches.specs.TouchMaps.{all_remembered, HaveOneLength};

    ghost view = { λ m. all_remembered m.writes m.others m.reads };

    ghost invariant = { λ m. HaveOneLength m.writes m.others m.reads };
}

impl TouchMap {
    /// Of so many bytes that nobody touched. The only error is want of memory.
    pub fn new(alloc: Global, len: u64) -> Result<TouchMap, AllocError>
        ensures len { IfOk result (λ map. length map ≡ len) }
        ensures values { IfOk result (λ map. (index : ℕ) → index < len
            → slice_get map index ≡ Some untouched) }
    {
        Ok(TouchMap {
            writes: RangeMap::new(alloc, len, KeptWrite::none())?,
            reads: RangeMap::new(alloc, len, LastReads::none())?,
            others: RangeMap::new(alloc, len, OtherTouches::none())?,
        })
    }

    /// The number of bytes, which never changes.
    pub fn len(&self) -> u64
        ensures { result ≡ length self.now }
    {
        self.others.len()
    }

    /// Whether of some byte of a range the last read, by the host or by a command of some queue, or
    /// the last layout transition doesn't come before.
    pub fn has_early(&self, low: u64, high: u64, new_node: &NewNode<'_>) -> bool
        requires order { low ≤ high }
        requires within { high ≤ length self.now }
        ensures { FoundIn (IsEarly new_node.now) result self.now low high }
    {
        for run in self.others.overlapping(low, high) {
            let early = self.reads.find(
                run.start,
                run.end,
                |reads| is_early(run.value, reads, new_node),
            );
            if early.is_some() {
                return true;
            }
        }
        false
    }

    /// The same of the last reads by commands alone.
    pub fn has_early_command(&self, low: u64, high: u64, new_node: &NewNode<'_>) -> bool
        requires order { low ≤ high }
        requires within { high ≤ length self.now }
        ensures { FoundIn (HasEarlyCommand new_node.now) result self.now low high }
    {
        self.reads
            .find(
                low,
                high,
                |reads| has_early_read(&reads.by_queues, new_node),
            )
            .is_some()
    }

    /// Whether some byte of a range was written by a command, and the last invalidation of it doesn't
    /// see that.
    pub(crate) fn has_stale(&self, low: u64, high: u64) -> bool
        requires order { low ≤ high }
        requires within { high ≤ length self.now }
        ensures { FoundIn (λ r t. r ≡ (is_some t.write && not t.is_invalidated)) result self.now low high }
    {
        self.writes
            .find(low, high, |kept| kept.last().is_stale())
            .is_some()
    }
}
