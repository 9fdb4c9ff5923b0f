//! How commands are run: in pieces, each of which writes its bytes and no others.
#![tactic(auto)]

mod copying;
mod counts;
mod filling;
mod pieces;
mod regions;
mod stretches;
mod updating;

pub use copying::RegionCopy;
pub use counts::{CopyError, Counts, FoundPart};
pub use filling::Fill;
pub use regions::{CopyPieces, FoundPiece};
pub use stretches::Stretch;
pub use updating::Update;
