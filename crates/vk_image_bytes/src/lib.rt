//! The bytes of an image, numbered.
#![tactic(auto)]

mod copies;
mod image_bytes;
mod joining;
mod ranges;
mod rows;

pub use image_bytes::{ImageBytes, Subresources};
pub use ranges::ByteRanges;
