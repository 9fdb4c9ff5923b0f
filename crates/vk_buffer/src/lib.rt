//! What a buffer asks of memory, and which resources may be bound where in a memory object.
//!
//! A resource takes a range of its memory object (Vulkan, "Resource Memory Association"). Ranges of
//! one object don't meet (that aliasing is refused: profile), and a linear and an optimal resource
//! don't share a page of `bufferImageGranularity`.
//!
//! ```text
//! let need = requirements(16, Usage(3))?;                      // 16 bytes, aligned to 16
//! let mut bindings = Bindings::new(alloc, 4096, 0);            // a memory object of type 0
//! bindings.bind(0, image_need, Kind::Optimal)?;
//! bindings.bind(256, need, Kind::Linear)                       // Err(Refused(Rule::Aliased))
//! bindings.bind(1024, need, Kind::Linear)?;                    // on the next page
//! ```
//!
//! Contracts see the bindings of a memory object as its size, its type, and what is bound at which
//! offset; a refusal is the first rule, in the order of the table of rules, that the definitions
//! say is broken.
#![tactic(auto)]

mod bindings;
mod conflicts;
mod laws;
mod needs;

pub use bindings::{BindError, Bindings, BoundResource};
pub use laws::bindings_are_judged;
pub use needs::requirements;
