//! Caches in front of memory: the host's, in front of memory that isn't coherent, and that of a
//! queue, in front of all memory.
//!
//! The host reaches such memory through a cache (Vulkan, "Host Access to Device Memory
//! Objects"): what it writes reaches the memory object when it is flushed, and what the device
//! writes is read after an invalidation. Both go by atoms of 64 bytes (`nonCoherentAtomSize`; 64:
//! profile), rounded outward; the last atom ends with its object. The cache may also evict or load
//! an atom at any time.
//!
//! ```text
//! let mut cache = HostCache::new(alloc);
//! cache.write(0, &region, 8, &[1, 2])?;        // the host sees 1 2, the device what was there
//! cache.flush(0, &mut region, 8, 2);           // now the device sees them too
//! region.write(8, &[3]);                       // the host still sees 1 2
//! cache.invalidate(0, 8, 2);                   // and now 3 2
//! ```
//!
//! What a queue writes stays in its cache until an availability operation writes it back, and what it
//! holds a copy of is read there until a visibility operation drops it (Vulkan, "Execution and Memory
//! Dependencies"). Ranges are of bytes; room for all bytes of an object is taken by `add`, and nothing
//! else wants memory.
//!
//! ```text
//! let mut cache = QueueCache::new(alloc);
//! cache.add(0, region.size())?;
//! cache.write(0, 8, &[1, 2]);                  // the queue sees 1 2, memory has what was there
//! cache.write_back(0, &mut region, 8, 10);     // now memory has them too
//! region.write(8, &[3]);                       // the queue still sees 1 2
//! cache.drop_clean(0, 8, 10);                  // and now 3 2
//! ```
//!
//! Contracts see a cache as what it holds of each byte of each memory object, by the object's
//! number, and speak of a byte as of a `Cell`: its value in the region with what is held of it.
//! What is held is kept byte by byte, so a byte that was never written is never written back. The
//! only error is want of memory, after which the cache holds what it held.
#![tactic(auto)]

mod atoms;
mod host;
mod mark;
mod marks;
mod object;
mod queue;
mod queue_object;
mod span;

pub use host::HostCache;
pub use mark::Mark;
pub use queue::QueueCache;
