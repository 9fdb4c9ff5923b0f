//! What memory still has of bytes whose newest values are in place already.
//!
//! A queue's writes stay in its cache until an availability operation writes them back (Vulkan,
//! "Execution and Memory Dependencies"). A device may write them to memory at once and keep beside it
//! what memory would still have: then a byte is late, until memory catches up.
//!
//! ```text
//! let mut lags = Lags::new(alloc);
//! lags.add(3, 16)?;                                       // a buffer of 16 bytes, whose id is 3
//! lags.write_from(3, 4, 2, region, 256, writer);          // it lies from byte 256 of the region on
//! region.write(260, &[9, 9]);                             // in place already; memory has what was there
//! lags.look(3, 0, &mut bytes);                            // bytes 4 and 5 as they were
//! lags.catch_up(3, 0, 16, Due::Of(writer.queue));         // what that queue wrote is written back
//! lags.late(3, 4)                                         // None
//! ```
//!
//! Room for all bytes of a resource is taken by `add`; nothing else wants memory. Contracts see of each
//! byte of each resource, by the resource's id, whether it is late.
#![tactic(auto)]

mod bytes;
mod chunks;
mod lags;
mod late;
mod marks;
mod parts;
mod reaching;

pub use lags::Lags;
pub use late::{Due, Late, Writer};
