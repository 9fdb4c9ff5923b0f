ghost use Rattle.std.specs.Prelude.{◌≡◌, ℕ, ◌+◌, ◌*◌, ◌<◌, ◌≤◌, Some, length};
ghost use Rattle.vk_model.specs.declared.resource.ImageInfo.{ImageInfo};
ghost use Rattle.vk_image_transfer.specs.Pieces.{piece_in, all_cleared, all_copied_in, all_copied_out, copy_image_pieces};
ghost use Rattle.vk_image_transfer.specs.Stretches.{IsNext};

use crate::images::shape_at;
use crate::pieces::filling;
use crate::resources::{Placed, Resources};
use crate::work::{Regions, Work};
use vk_image_transfer::{
    Clear, CopyImage, CopyIn, CopyOut, ImageCopyRow, RegionRows, RowStretches,
};
use vk_model::Cmd;
use vk_transfer::{CopyPieces, Fill, Stretch, Update};

/// The bytes that a piece of a command writes: they are of one resource, and are walked in stretches.
/// It takes no memory.
#[derive(Debug, Drop)]
pub struct Written {
    /// The id of the resource.
    pub resource: u32,
    /// The bytes that are left to be walked, counted from the first one of the resource.
    pub left: RowStretches,
}

impl Written {
    /// Takes the next stretch of the bytes that are left; `None` where there are none.
    pub fn next_stretch(&mut self) -> Option<Stretch>
        ensures resource { self.new.resource ≡ self.old.resource }
        ensures next { IsNext result self.old.left self.new.left }
    {
        self.left.next_stretch()
    }
}

impl Resources {
    ghost use Rattle.vk_transfer.specs.Fills.{fill_piece};
    ghost use Rattle.vk_transfer.specs.Updates.{update_piece};
    ghost use Rattle.vk_transfer.specs.Copies.{copy_piece};
    ghost use Rattle.vk_resources.specs.Held.{shape_of, flat};
    ghost use Rattle.vk_resources.specs.Done.{PieceReady};
    ghost use Rattle.vk_resources.specs.Stretches.{HasWrites, HasPieceWrites};
    ghost use Rattle.vk_resources.specs.Inner.Images.{ClearReady, RegionsReady, MayCopyIn, ImageRowReady};
    ghost use Rattle.vk_resources.specs.Inner.Steps.{CopyReady};
    ghost use Rattle.vk_resources.specs.Inner.Works.{IsForImages};

    /// The bytes of a resource that the piece of this number of a command writes.
    pub fn written(&self, work: &Work<'_>, number: u64) -> Written
        requires { PieceReady self.now work.now number }
        ensures { HasPieceWrites self.now work.now number result }
    {
        match work.command {
            Cmd::Fill {
                buffer,
                offset,
                size,
                word,
            } => {
                let placed = self.there(*buffer);
                let fill = filling(placed, *offset, *size, *word);
                self.fill_written(*buffer, placed, fill, number)
            }
            Cmd::Update {
                buffer,
                offset,
                bytes,
            } => {
                let placed = self.there(*buffer);
                let update = Update {
                    offset: *offset,
                    bytes: bytes.as_slice(),
                };
                self.update_written(*buffer, placed, &update, number)
            }
            Cmd::Copy {
                source,
                destination,
                ..
            } => {
                let from = self.there(*source);
                let to = self.there(*destination);
                match &work.regions {
                    Regions::OfBuffers(pieces) => {
                        self.copy_written(from, *destination, to, pieces, number)
                    }
                    _ => unreachable!(),
                }
            }
            _ => self.written_of_images(work, number),
        }
    }

    /// What a piece of a fill of a buffer writes.
    fn fill_written(&self, buffer: u32, placed: Placed, fill: Fill, number: u64) -> Written
        requires placed { flat self.now buffer ≡ Some placed }
        requires inside { fill.offset + fill.size ≤ placed.size }
        requires piece { 4096 * number < fill.size }
        ensures { HasWrites self.now (fill_piece buffer fill number) result }
    {
        // A buffer's size is a whole number of 64 bits, so the places in it are too.
        let _size = placed.size;
        Written {
            resource: buffer,
            left: RowStretches::one(fill.stretch(number, 0)),
        }
    }

    /// What a piece of an update of a buffer writes.
    fn update_written(
        &self,
        buffer: u32,
        placed: Placed,
        update: &Update<'_>,
        number: u64,
    ) -> Written
        requires placed { flat self.now buffer ≡ Some placed }
        requires inside { update.now.offset + length update.now.bytes.now ≤ placed.size }
        requires piece { 4096 * number < length update.now.bytes.now }
        ensures { HasWrites self.now (update_piece buffer update.now number) result }
    {
        // A buffer's size is a whole number of 64 bits, so the places in it are too.
        let _size = placed.size;
        Written {
            resource: buffer,
            left: RowStretches::one(update.stretch(number, 0)),
        }
    }

    /// What a piece of a copy from a buffer to a buffer writes.
    fn copy_written(
        &self,
        source: Placed,
        destination: u32,
        placed: Placed,
        pieces: &CopyPieces<'_>,
        number: u64,
    ) -> Written
        requires placed { flat self.now destination ≡ Some placed }
        requires piece { CopyReady source placed pieces.now number }
        ensures { (s : ℕ) → HasWrites self.now (copy_piece s destination pieces.now number) result }
    {
        let found = pieces.find(number);
        // A buffer's size is a whole number of 64 bits, so the places in it are too.
        let _size = placed.size;
        let stretch = found.copy.stretch(found.number, 0);
        Written {
            resource: destination,
            left: RowStretches::one(stretch),
        }
    }

    /// What a piece of a command on images writes. A command on none that gets here has no piece.
    fn written_of_images(&self, work: &Work<'_>, number: u64) -> Written
        requires ready { PieceReady self.now work.now number }
        requires others { IsForImages work.now }
        ensures { HasPieceWrites self.now work.now number result }
    {
        match work.command {
            Cmd::Clear {
                image,
                color,
                ranges,
                ..
            } => {
                let clear = Clear {
                    ranges: ranges.as_slice(),
                    color: *color,
                };
                self.clear_written(*image, &clear, number)
            }
            Cmd::CopyIn { image, .. } => self.copy_in_written(*image, work.rows(), number),
            Cmd::CopyOut { image, buffer, .. } => {
                let to = self.there(*buffer);
                self.copy_out_written(*image, *buffer, to, work.rows(), number)
            }
            Cmd::CopyImage {
                source,
                destination,
                ..
            } => {
                let row = work.image_rows().find(number);
                self.copy_image_written(*source, *destination, row)
            }
            _ => unreachable!(),
        }
    }

    /// What a piece of a clear of an image writes.
    fn clear_written(&self, image: u32, clear: &Clear<'_>, number: u64) -> Written
        requires { ClearReady self.now image clear.now.ranges.now number }
        ensures { (m : ImageInfo) → shape_of self.now image ≡ Some m → HasWrites self.now (piece_in (all_cleared image clear.now.color m clear.now.ranges.now) number) result }
    {
        // An image's size is a whole number of 64 bits, so the places in it are too.
        let _size = self.picture(image).size;
        let shape = shape_at(&self.shapes, image);
        let found = clear.find(number, shape);
        Written {
            resource: image,
            left: found.clear.stretches(found.number, shape, 0),
        }
    }

    /// What a piece of a copy from a buffer to an image writes.
    fn copy_in_written(&self, image: u32, rows: &RegionRows<'_>, number: u64) -> Written
        requires { MayCopyIn self.now image rows.now number }
        ensures { (b : ℕ) (m : ImageInfo) → shape_of self.now image ≡ Some m → HasWrites self.now (piece_in (all_copied_in b image m rows.now) number) result }
    {
        // An image's size is a whole number of 64 bits, so the places in it are too.
        let _size = self.picture(image).size;
        let shape = shape_at(&self.shapes, image);
        let row = rows.find(number);
        let copy = CopyIn { region: row.region };
        Written {
            resource: image,
            left: copy.stretches(row.number, shape, 0),
        }
    }

    /// What a piece of a copy from an image to a buffer writes.
    fn copy_out_written(
        &self,
        image: u32,
        buffer: u32,
        placed: Placed,
        rows: &RegionRows<'_>,
        number: u64,
    ) -> Written
        requires placed { flat self.now buffer ≡ Some placed }
        requires ready { RegionsReady self.now placed.size image rows.now number }
        ensures { (m : ImageInfo) → shape_of self.now image ≡ Some m → HasWrites self.now (piece_in (all_copied_out image buffer m rows.now) number) result }
    {
        // A buffer's size is a whole number of 64 bits, so the places in it are too.
        let _size = placed.size;
        let shape = shape_at(&self.shapes, image);
        let row = rows.find(number);
        let copy = CopyOut { region: row.region };
        Written {
            resource: buffer,
            left: copy.stretches(row.number, shape, 0),
        }
    }

    /// What a row of a region of a copy from an image to an image writes.
    fn copy_image_written(&self, source: u32, destination: u32, row: ImageCopyRow) -> Written
        requires { ImageRowReady self.now source destination row.region row.number }
        ensures { (m : ImageInfo) → shape_of self.now destination ≡ Some m → HasWrites self.now (piece_in (copy_image_pieces source destination m row.region) row.number) result }
    {
        // An image's size is a whole number of 64 bits, so the places in it are too.
        let _size = self.picture(destination).size;
        let shape = shape_at(&self.shapes, destination);
        let copy = CopyImage { region: row.region };
        Written {
            resource: destination,
            left: copy.stretches(row.number, shape, 0),
        }
    }
}
