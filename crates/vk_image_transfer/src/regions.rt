ghost use Rattle.std.specs.Prelude.{◌≡◌, ◌*◌, ◌^◌, ◌<◌, ◌≤◌, ℕ, length, sum_by, IfOk, IsErrOf};
ghost use Rattle.std.specs.List.{Contains};
ghost use Rattle.vk_image_transfer.specs.Pieces.{piece_in, copy_in_pieces, copy_out_pieces, copy_image_pieces, all_copied_in, all_copied_out, all_copied, copy_rows};
ghost use Rattle.vk_model.specs.declared.resource.ImageInfo.{ImageInfo};
ghost use Rattle.vk_model.specs.World.Areas as areas;
ghost use Rattle.vk_transfer.specs.declared.counts.CopyError.TheVariants.{TooManyPieces};

use crate::rows::row_count;
use std::alloc::Global;
use std::marker::Model;
use vk_model::{BufferImageCopy, ImageCopy};
use vk_transfer::{CopyError, Counts};

/// The pieces of a copy between a buffer and an image, region by region, to be found by their
/// numbers. Contracts see the regions.
#[derive(Drop)]
pub struct RegionRows<'r> {
    regions: &'r [BufferImageCopy],
    /// How many rows come before each region.
    counts: Counts,
}

impl<'r> Model for RegionRows<'r> {
    ghost use Rattle.std.specs.Prelude.{List, length};
    ghost use Rattle.vk_model.specs.declared.command.BufferImageCopy.{BufferImageCopy as Copied};
    ghost use Rattle.vk_model.specs.World.Areas.{row_count as rows_in};
    ghost use Rattle.vk_transfer.specs.Counted.{AreCounted};

    ghost Value = { List Copied };

    ghost view = { λ r. r.regions.now };

    ghost invariant = { λ r. AreCounted rows_in r.regions.now (length r.regions.now) r.counts };
}

/// A row of a region of a copy between a buffer and an image.
#[derive(Clone, Copy, Debug, Drop, PartialEq, Eq)]
pub struct RegionRow {
    /// The region.
    pub region: BufferImageCopy,
    /// The number of the piece among those of the region.
    pub number: u64,
}

impl<'r> RegionRows<'r> {
    /// The pieces of a copy with these regions. It walks them once.
    ///
    /// # Errors
    /// Where they are more than a number of 64 bits says, and want of memory.
    pub fn new(alloc: Global, regions: &'r [BufferImageCopy]) -> Result<RegionRows<'r>, CopyError>
        ensures ok { IfOk result (λ r. r ≡ regions.now) }
        ensures many { IsErrOf result TooManyPieces → 2 ^ 64 ≤ sum_by areas.row_count regions.now }
    {
        let mut counts = Counts::new(alloc);
        for region in regions {
            counts.add(row_count(region.width, region.height, region.layers))?;
        }
        Ok(RegionRows { regions, counts })
    }

    /// How many pieces there are.
    pub fn pieces(&self) -> u64
        ensures rows { result ≡ sum_by areas.row_count self.now }
        ensures copied_in { (b i : ℕ) (m : ImageInfo) → result ≡ length (all_copied_in b i m self.now) }
        ensures copied_out { (i b : ℕ) (m : ImageInfo) → result ≡ length (all_copied_out i b m self.now) }
    {
        self.counts.all()
    }

    /// Finds the piece of a number. Its time grows with the digits of the number of regions.
    pub fn find(&self, number: u64) -> RegionRow
        requires { number < sum_by areas.row_count self.now }
        ensures copied_in { (b i : ℕ) (m : ImageInfo) → piece_in (all_copied_in b i m self.now) number ≡ piece_in (copy_in_pieces b i m result.region) result.number }
        ensures copied_out { (i b : ℕ) (m : ImageInfo) → piece_in (all_copied_out i b m self.now) number ≡ piece_in (copy_out_pieces i b m result.region) result.number }
        ensures region { Contains self.now result.region }
        ensures row { result.number < result.region.layers * result.region.height }
        ensures columns { 0 < result.region.width }
    {
        let found = self.counts.find(number);
        RegionRow {
            region: self.regions[found.part],
            number: found.number,
        }
    }
}

/// The pieces of a copy between images, region by region, to be found by their numbers. Contracts
/// see the regions.
#[derive(Drop)]
pub struct ImageCopyRows<'r> {
    regions: &'r [ImageCopy],
    /// How many rows come before each region.
    counts: Counts,
}

impl<'r> Model for ImageCopyRows<'r> {
    ghost use Rattle.std.specs.Prelude.{List, length};
    ghost use Rattle.vk_image_transfer.specs.Pieces.{copy_rows};
    ghost use Rattle.vk_model.specs.declared.command.ImageCopy.{ImageCopy as Copied};
    ghost use Rattle.vk_transfer.specs.Counted.{AreCounted};

    ghost Value = { List Copied };

    ghost view = { λ r. r.regions.now };

    ghost invariant = { λ r. AreCounted copy_rows r.regions.now (length r.regions.now) r.counts };
}

/// A row of a region of a copy between images.
#[derive(Clone, Copy, Debug, Drop, PartialEq, Eq)]
pub struct ImageCopyRow {
    /// The region.
    pub region: ImageCopy,
    /// The number of the piece among those of the region.
    pub number: u64,
}

impl<'r> ImageCopyRows<'r> {
    /// The pieces of a copy with these regions. It walks them once.
    ///
    /// # Errors
    /// Where they are more than a number of 64 bits says, and want of memory.
    pub fn new(alloc: Global, regions: &'r [ImageCopy]) -> Result<ImageCopyRows<'r>, CopyError>
        ensures ok { IfOk result (λ r. r ≡ regions.now) }
        ensures many { IsErrOf result TooManyPieces → 2 ^ 64 ≤ sum_by copy_rows regions.now }
    {
        let mut counts = Counts::new(alloc);
        for region in regions {
            counts.add(row_count(region.width, region.height, region.layers))?;
        }
        Ok(ImageCopyRows { regions, counts })
    }

    /// How many pieces there are.
    pub fn pieces(&self) -> u64
        ensures rows { result ≡ sum_by copy_rows self.now }
        ensures pieces { (s d : ℕ) (m : ImageInfo) → result ≡ length (all_copied s d m self.now) }
    {
        self.counts.all()
    }

    /// Finds the piece of a number. Its time grows with the digits of the number of regions.
    pub fn find(&self, number: u64) -> ImageCopyRow
        requires { number < sum_by copy_rows self.now }
        ensures piece { (s d : ℕ) (m : ImageInfo) → piece_in (all_copied s d m self.now) number ≡ piece_in (copy_image_pieces s d m result.region) result.number }
        ensures region { Contains self.now result.region }
        ensures row { result.number < result.region.layers * result.region.height }
        ensures columns { 0 < result.region.width }
    {
        let found = self.counts.find(number);
        ImageCopyRow {
            region: self.regions[found.part],
            number: found.number,
        }
    }
}
