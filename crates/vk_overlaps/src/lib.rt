//! Whether parts of resources overlap, without comparing each with each.
//!
//! A part lies along five axes, as a box does: `Extent`. `overlapping` takes the parts that are written
//! and those that are read, and divides both by planes until few are on a side of them. Above it are
//! the regions and ranges of commands.
#![tactic(auto)]

mod boxes;
mod extents;
mod overlaps;
mod pairs;
mod planes;
mod regions;
mod rows;
mod transitions;

pub use boxes::{TexelBox, destination_box, region_box, source_box};
pub use extents::{Extent, Span};
pub use overlaps::{overlap, overlapping};
pub use regions::{copies_overlap, image_copies_overlap, ranges_overlap, regions_overlap};
pub use rows::{last_byte, row_count, row_size, row_start, rows_overlap};
pub use transitions::transitions_overlap;
