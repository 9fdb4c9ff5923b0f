//! Clears and copies of images, in pieces: each writes the texels of a row, and no others.
#![tactic(auto)]

mod clearing;
mod colors;
mod copying_images;
mod copying_in;
mod copying_out;
mod lines;
mod moving;
mod ranges;
mod regions;
mod rows;
mod stretches;

pub use clearing::LevelClear;
pub use copying_images::CopyImage;
pub use copying_in::CopyIn;
pub use copying_out::CopyOut;
pub use ranges::{Clear, ClearRow};
pub use regions::{ImageCopyRow, ImageCopyRows, RegionRow, RegionRows};
pub use stretches::RowStretches;
