//! The current layouts of an image, and the owner of a resource.
//!
//! Each subresource of an image is in a layout, which a transition changes (Vulkan, "Image
//! Layouts"). A resource whose sharing mode is exclusive is owned by the queue family that used it
//! last, until another one uses it, which loses the contents, or until a release and an acquire
//! hand it on with them (Vulkan, "Queue Family Ownership Transfer").
//!
//! ```text
//! let mut layouts = Layouts::new(alloc, 3, 2)?;                  // 3 levels, 2 layers: all UNDEFINED
//! layouts.transition(&all, Layout::GENERAL);
//! layouts.is_in(&all, Layout::GENERAL)                           // true
//!
//! let mut owner = Owner::Nobody;
//! owner.use_on(0)                                                // false: nothing is lost
//! owner.release(0, &element, 7)?;                                // at node 7
//! owner.acquire(1, &element)?                                    // 7, and family 1 owns it
//! owner.use_on(0)                                                // true: the contents are lost
//! ```
//!
//! Contracts see layouts as a list for each level, and an owner as that of the definitions with the
//! node of its release. Where they speak of a world, it's the layouts of an image and the owner of
//! an exclusive resource that a world of the definitions has. Only `Layouts::new` takes memory.
#![tactic(auto)]

mod layouts;
mod level;
mod ownership;

pub use layouts::Layouts;
pub use ownership::{Owner, Release, Transfer, is_pair};
