//! Where the texels of an image lie in its memory.
//!
//! A linear image has its rows one after another. An optimal image has tiles of 8 by 8 texels, and
//! in a tile two texels of a row lie together, two rows of two, and so on (profile). A `Shape` is
//! made of an image once, and says where each texel lies, what the image asks of memory, and which
//! texels of a row lie one after another, so that copies move runs of bytes and not texels.
//!
//! ```text
//! let shape = Shape::new(Format::R16Uint, 9, 5, 1, 1, Kind::Optimal)?;
//! shape.requirements()                   // 256 bytes, aligned to 256, of memory type 0
//! shape.address(0, 0, 3, 4)              // 74
//! shape.row(0, 0, 4).run(2, 9)           // at 72: the texels 2 and 3
//! ```
//!
//! Contracts see a shape as the `ImageInfo` that it is of, and say where its texels lie by the
//! definitions of `vk_model`. That no two texels share a byte, and that all lie in the bytes that
//! the image asks for, are laws of `vk_model` (`texels_apart`, `texels_inside`).
#![tactic(auto)]

mod rows;
mod shapes;
mod sizes;

pub use rows::{Row, Run};
pub use shapes::Shape;
pub use sizes::{
    asks_more, has_bad_shape, image_align, level_height, level_size, level_width, row_pitch,
    texel_size,
};
