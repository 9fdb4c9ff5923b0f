ghost use Rattle.std.specs.Prelude.{◌≡◌, ◌+◌, ◌*◌, ◌^◌, ◌<◌, ◌≤◌, ℕ, List, length, IfOk, IsErrOf};
ghost use Rattle.vk_transfer.specs.Copies.{copy_pieces, copy_piece, region_piece};

use crate::copying::RegionCopy;
use crate::counts::{CopyError, Counts};
use crate::pieces::piece_count;
use std::alloc::Global;
use std::marker::Model;
use vk_model::BufferCopy;

/// The pieces of a copy between buffers, region by region, to be found by their numbers. Contracts
/// see the regions.
#[derive(Drop)]
pub struct CopyPieces<'r> {
    regions: &'r [BufferCopy],
    /// How many pieces come before each region.
    counts: Counts,
}

impl<'r> Model for CopyPieces<'r> {
    ghost use Rattle.std.specs.Prelude.{List, length};
    ghost use Rattle.vk_model.specs.declared.command.BufferCopy.{BufferCopy as Copied};
    ghost use Rattle.vk_transfer.specs.Counted.{AreCounted};
    ghost use Rattle.vk_transfer.specs.Copies.{region_count};

    ghost Value = { List Copied };

    ghost view = { λ p. p.regions.now };

    ghost invariant = { λ p. AreCounted region_count p.regions.now (length p.regions.now) p.counts };
}

/// A piece of a copy: that of a number in one of its regions.
#[derive(Clone, Copy, Debug, Drop, PartialEq, Eq)]
pub struct FoundPiece {
    /// The region.
    pub copy: RegionCopy,
    /// The number of the piece among those of the region.
    pub number: u64,
}

impl<'r> CopyPieces<'r> {
    ghost use Rattle.std.specs.List.{Contains};
    ghost use Rattle.vk_transfer.specs.declared.counts.CopyError.TheVariants.{TooManyPieces};

    /// The pieces of a copy with these regions. It walks them once.
    pub fn new(alloc: Global, regions: &'r [BufferCopy]) -> Result<CopyPieces<'r>, CopyError>
        ensures ok { IfOk result (λ p. p ≡ regions.now) }
        ensures many { IsErrOf result TooManyPieces → (s d : ℕ) → 2 ^ 64 ≤ length (copy_pieces s d regions.now) }
    {
        let mut counts = Counts::new(alloc);
        for region in regions {
            counts.add(piece_count(region.size))?;
        }
        Ok(CopyPieces { regions, counts })
    }

    /// How many pieces there are.
    pub fn pieces(&self) -> u64
        ensures { (s d : ℕ) → result ≡ length (copy_pieces s d self.now) }
    {
        self.counts.all()
    }

    /// Finds the piece of a number. Its time grows with the digits of the number of regions.
    pub fn find(&self, number: u64) -> FoundPiece
        requires { number < length (copy_pieces 0 0 self.now) }
        ensures piece { (s d : ℕ) → copy_piece s d self.now number ≡ region_piece s d result.copy.region result.number }
        ensures region { Contains self.now result.copy.region }
        ensures number { 4096 * result.number < result.copy.region.size }
    {
        let found = self.counts.find(number);
        FoundPiece {
            copy: RegionCopy {
                region: self.regions[found.part],
            },
            number: found.number,
        }
    }
}
