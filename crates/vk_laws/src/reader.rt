//! A small memory with caches, whose reads are the model's by the law of the machine.
ghost use Rattle.std.specs.Prelude.{◌≡◌, ℕ, ◌<◌, List, length, Option, Some, None, IsTrue, ◌↔◌};
ghost use Rattle.vk_model.specs.World.Bytes.{Byte, in_buffer};
ghost use Rattle.vk_laws.specs.Machine.{Conflict, HazardFree, IsIn, IsModel, MayRun, Reads, Task, TraceAccesses};
ghost use Rattle.vk_model.specs.Run.Caches.{Cell, value_through};
ghost use Rattle.vk_laws.specs.Caches.{CacheFree, Caching, Reached};
ghost use Rattle.vk_laws.specs.Reader.{cells_of, held_as};
ghost use Rattle.vk_laws.specs.Discards.{with_discards};
ghost use Rattle.vk_laws.specs.TraceBytes.{value_before};
ghost use Rattle.vk_laws.specs.TraceCaches.{caching_of};
ghost use Rattle.vk_model.specs.Trace.Point.{Past};
ghost use Rattle.vk_model.specs.Trace.Structure.{IsOrdered};
ghost use Rattle.vk_model.specs.Rules.Table.{fault};

use crate::machine::every_order;
use crate::tasks::cached_trace_is_fresh;

/// What a queue's cache holds of a byte.
#[derive(Clone, Copy)]
pub enum Copied {
    /// Nothing.
    Nothing,
    /// A copy of what the region had.
    Clean(u8),
    /// A write that hasn't reached the region.
    Dirty(u8),
}

/// A queue's cache: what it holds of each byte of the buffer.
#[derive(Drop)]
pub struct Cache {
    /// One for each byte.
    pub bytes: Vec<Copied>,
}

/// The memory of one buffer, number 0, and the caches of two queues, which are agents 0 and 1.
#[derive(Drop)]
pub struct Memory {
    /// The bytes in their region.
    pub region: Vec<u8>,
    /// The cache of queue 0.
    pub first: Cache,
    /// The cache of queue 1.
    pub second: Cache,
}

/// What a cache and the region show of a byte.
fn value_through(copied: Copied, region: u8) -> u8
    ensures { result ≡ value_through (held_as copied) region }
{
    match copied {
        Copied::Nothing => region,
        Copied::Clean(value) => value,
        Copied::Dirty(value) => value,
    }
}

impl Memory {
    /// What queue 1 reads at a byte: the model's value, when a task of the queue that reads it may come next.
    pub fn read(&self, at: usize) -> u8
        requires region { at < length self.now.region.items }
        requires first { at < length self.now.first.bytes.items }
        requires second { at < length self.now.second.bytes.items }
        ensures { (tr : TraceAccesses) (ca : Caching) (value : ℕ → Byte → Option ℕ) (done : List Task) (t : Task) (v : ℕ) → HazardFree tr → CacheFree tr ca → IsModel tr value
            → Reached tr ca done (cells_of self.now) → MayRun tr done t → ca.agent t ≡ 1 → Reads tr t (in_buffer 0 at) → value t.node (in_buffer 0 at) ≡ Some v → result ≡ v }
    {
        every_order();
        value_through(self.second.bytes[at], self.region[at])
    }

    /// What the host reads at a byte, with the first cache as its own: the model's value, when the host's
    /// read of the byte may come next in an ordered past without a fault.
    pub fn host_read(&self, at: usize) -> u8
        requires region { at < length self.now.region.items }
        requires first { at < length self.now.first.bytes.items }
        requires second { at < length self.now.second.bytes.items }
        ensures { (all : Past) (done : List Task) (next : Task) (v : ℕ) → IsOrdered all → fault all ≡ None
            → Reached (with_discards all) (caching_of all) done (cells_of self.now) → MayRun (with_discards all) done next → (caching_of all).agent next ≡ 0
            → Reads (with_discards all) next (in_buffer 0 at) → value_before all next.node (in_buffer 0 at) ≡ Some v → result ≡ v }
    {
        cached_trace_is_fresh();
        value_through(self.first.bytes[at], self.region[at])
    }
}

/// Whether a task of another node, whose access conflicts with that of a task that may come next, is done:
/// by the numbers of their nodes.
pub fn is_done(other: usize, next: usize) -> bool
    ensures { (tr : TraceAccesses) (ca : Caching) (done : List Task) (cells : Byte → Cell) (s t : Task) (c : Byte) → HazardFree tr → Reached tr ca done cells → MayRun tr done t
        → s.node ≡ other → t.node ≡ next → (other ≡ next → ⊥) → Conflict tr s t c → Conflict tr t s c → IsTrue result ↔ IsIn s done }
{
    every_order();
    other < next
}
