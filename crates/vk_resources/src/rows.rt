use vk_heap::Region;
use vk_image_tiles::Shape;
use vk_image_transfer::{CopyImage, CopyIn, CopyOut, ImageCopyRow, RegionRow};
use vk_memory::RegionCopy;

/// A row of a copy from a buffer to an image, which lie in their memory objects from these places on.
#[derive(Clone, Copy)]
pub(crate) struct RowIn<'a> {
    pub(crate) row: RegionRow,
    pub(crate) buffer_start: u64,
    pub(crate) image: &'a Shape,
    pub(crate) image_start: u64,
}

impl<'a> RegionCopy for RowIn<'a> {
    ghost use Rattle.vk_resources.specs.Inner.Rows.{SharesMemory, LiesInTwo, IsCopiedIn};

    ghost may_copy_within = { λ r region. SharesMemory r.row.region r.row.number r.image.now r.buffer_start r.image_start region };

    ghost may_copy_between = { λ r source destination. LiesInTwo r.row.region r.row.number r.image.now r.buffer_start r.image_start source destination };

    ghost has_copied = { λ r source old new. IsCopiedIn r.row.region r.row.number r.image.now r.buffer_start r.image_start source old new };

    fn copy_within(&self, region: &mut Region) {
        let copy = CopyIn {
            region: self.row.region,
        };
        copy.run_piece_within(
            self.row.number,
            region,
            self.buffer_start,
            self.image,
            self.image_start,
        );
    }

    fn copy_between(&self, source: &Region, destination: &mut Region) {
        let copy = CopyIn {
            region: self.row.region,
        };
        copy.run_piece(
            self.row.number,
            source,
            self.buffer_start,
            self.image,
            destination,
            self.image_start,
        );
    }
}

/// A row of a copy from an image to a buffer, which lie in their memory objects from these places on.
#[derive(Clone, Copy)]
pub(crate) struct RowOut<'a> {
    pub(crate) row: RegionRow,
    pub(crate) image: &'a Shape,
    pub(crate) image_start: u64,
    pub(crate) buffer_start: u64,
}

impl<'a> RegionCopy for RowOut<'a> {
    ghost use Rattle.vk_resources.specs.Inner.Rows.{SharesMemory, LiesInTwo, IsCopiedOut};

    ghost may_copy_within = { λ r region. SharesMemory r.row.region r.row.number r.image.now r.buffer_start r.image_start region };

    ghost may_copy_between = { λ r source destination. LiesInTwo r.row.region r.row.number r.image.now r.buffer_start r.image_start destination source };

    ghost has_copied = { λ r source old new. IsCopiedOut r.row.region r.row.number r.image.now r.image_start r.buffer_start source old new };

    fn copy_within(&self, region: &mut Region) {
        let copy = CopyOut {
            region: self.row.region,
        };
        copy.run_piece_within(
            self.row.number,
            self.image,
            region,
            self.image_start,
            self.buffer_start,
        );
    }

    fn copy_between(&self, source: &Region, destination: &mut Region) {
        let copy = CopyOut {
            region: self.row.region,
        };
        copy.run_piece(
            self.row.number,
            self.image,
            source,
            self.image_start,
            destination,
            self.buffer_start,
        );
    }
}

/// A row of a copy from an image to another, which lie in their memory objects from these places on.
#[derive(Clone, Copy)]
pub(crate) struct RowAcross<'a> {
    pub(crate) row: ImageCopyRow,
    pub(crate) source: &'a Shape,
    pub(crate) source_start: u64,
    pub(crate) destination: &'a Shape,
    pub(crate) destination_start: u64,
}

impl<'a> RegionCopy for RowAcross<'a> {
    ghost use Rattle.vk_resources.specs.Inner.Rows.{SharesMemoryOfImages, ImagesInTwo, IsImageCopied};

    ghost may_copy_within = { λ r region. SharesMemoryOfImages r.row.region r.row.number r.source.now r.destination.now r.source_start r.destination_start region };

    ghost may_copy_between = { λ r source destination. ImagesInTwo r.row.region r.row.number r.source.now r.destination.now r.source_start r.destination_start source destination };

    ghost has_copied = { λ r source old new. IsImageCopied r.row.region r.row.number r.source.now r.destination.now r.source_start r.destination_start source old new };

    fn copy_within(&self, region: &mut Region) {
        let copy = CopyImage {
            region: self.row.region,
        };
        copy.run_piece_within(
            self.row.number,
            region,
            self.source,
            self.source_start,
            self.destination,
            self.destination_start,
        );
    }

    fn copy_between(&self, source: &Region, destination: &mut Region) {
        let copy = CopyImage {
            region: self.row.region,
        };
        copy.run_piece(
            self.row.number,
            self.source,
            source,
            self.source_start,
            self.destination,
            destination,
            self.destination_start,
        );
    }
}
