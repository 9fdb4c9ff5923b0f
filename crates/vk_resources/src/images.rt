ghost use Rattle.std.specs.Prelude.{◌≡◌, ℕ, Some, IsSome};
ghost use Rattle.vk_model.specs.declared.resource.ImageInfo.{ImageInfo};
ghost use Rattle.vk_image_transfer.specs.Pieces.{piece_in, all_cleared, all_copied_in, all_copied_out, copy_image_pieces};
ghost use Rattle.vk_resources.specs.Held.{shape_in};

use crate::resources::{Placed, Resources};
use crate::rows::{RowAcross, RowIn, RowOut};
use crate::work::Work;
use std::collections::BTreeMap;
use vk_image_tiles::Shape;
use vk_image_transfer::{Clear, CopyImage, ImageCopyRow, RegionRows};
use vk_model::{Cmd, texels_apart, texels_inside};

/// The shape of an image that is there.
pub(crate) fn shape_at(shapes: &BTreeMap<u32, Shape>, id: u32) -> &Shape
    requires { IsSome (shape_in shapes.now.entries id) }
    ensures { shape_in shapes.now.entries id ≡ Some result.now }
{
    match shapes.get(&id) {
        Some(shape) => shape,
        None => unreachable!(),
    }
}

impl Resources {
    ghost use Rattle.vk_resources.specs.Held.{placed, shape_of, flat};
    ghost use Rattle.vk_resources.specs.Done.{PieceReady};
    ghost use Rattle.vk_resources.specs.Inner.Steps.{IsPlaced, HasRun};
    ghost use Rattle.vk_resources.specs.Inner.Works.{IsForImages};
    ghost use Rattle.vk_resources.specs.Inner.Images.{HasPicture, ClearReady, RegionsReady, ImageRowReady, HasRunPiece};

    /// Where an image lies that is there.
    pub(crate) fn picture(&self, id: u32) -> Placed
        requires { HasPicture self.now id }
        ensures { placed self.now id ≡ Some result }
    {
        match self.placed(id) {
            Some(placed) => placed,
            None => unreachable!(),
        }
    }

    /// Runs a piece of a command on images. A command on none that gets here has no piece.
    pub(crate) fn run_for_images(&mut self, work: &Work<'_>, number: u64)
        requires ready { PieceReady self.old work.now number }
        requires others { IsForImages work.now }
        ensures { HasRunPiece self.old self.new work.now number }
    {
        match work.command {
            Cmd::Clear {
                image,
                color,
                ranges,
                ..
            } => {
                let clear = Clear {
                    ranges: ranges.as_slice(),
                    color: *color,
                };
                self.run_clear(*image, &clear, number);
            }
            Cmd::CopyIn { buffer, image, .. } => {
                let from = self.there(*buffer);
                self.run_copy_in(from, *image, work.rows(), number);
            }
            Cmd::CopyOut { image, buffer, .. } => {
                let to = self.there(*buffer);
                self.run_copy_out(*image, to, work.rows(), number);
            }
            Cmd::CopyImage {
                source,
                destination,
                ..
            } => {
                let row = work.image_rows().find(number);
                self.run_copy_image(*source, *destination, row);
            }
            _ => {}
        }
    }

    /// Runs a piece of a clear of an image.
    fn run_clear(&mut self, image: u32, clear: &Clear<'_>, number: u64)
        requires { ClearReady self.old image clear.now.ranges.now number }
        ensures { (m : ImageInfo) → shape_of self.old image ≡ Some m → HasRun self.old self.new (piece_in (all_cleared image clear.now.color m clear.now.ranges.now) number) }
    {
        texels_apart();
        texels_inside();
        let at = self.picture(image);
        let shape = shape_at(&self.shapes, image);
        let found = clear.find(number, shape);
        let region = self.memories.region_mut(at.object);
        found
            .clear
            .run_piece(found.number, shape, region, at.offset);
    }

    /// Runs a piece of a copy from a buffer to an image.
    fn run_copy_in(&mut self, buffer: Placed, image: u32, rows: &RegionRows<'_>, number: u64)
        requires buffer { IsPlaced self.old buffer }
        requires ready { RegionsReady self.old buffer.size image rows.now number }
        ensures { (b : ℕ) (m : ImageInfo) → flat self.old b ≡ Some buffer → shape_of self.old image ≡ Some m → HasRun self.old self.new (piece_in (all_copied_in b image m rows.now) number) }
    {
        texels_apart();
        texels_inside();
        let at = self.picture(image);
        let row = RowIn {
            row: rows.find(number),
            buffer_start: buffer.offset,
            image: shape_at(&self.shapes, image),
            image_start: at.offset,
        };
        self.memories.copy_by(buffer.object, at.object, &row);
    }

    /// Runs a piece of a copy from an image to a buffer.
    fn run_copy_out(&mut self, image: u32, buffer: Placed, rows: &RegionRows<'_>, number: u64)
        requires buffer { IsPlaced self.old buffer }
        requires ready { RegionsReady self.old buffer.size image rows.now number }
        ensures { (b : ℕ) (m : ImageInfo) → flat self.old b ≡ Some buffer → shape_of self.old image ≡ Some m → HasRun self.old self.new (piece_in (all_copied_out image b m rows.now) number) }
    {
        texels_apart();
        texels_inside();
        let at = self.picture(image);
        let row = RowOut {
            row: rows.find(number),
            image: shape_at(&self.shapes, image),
            image_start: at.offset,
            buffer_start: buffer.offset,
        };
        self.memories.copy_by(at.object, buffer.object, &row);
    }

    /// Runs a row of a region of a copy from an image to an image, which may be one.
    fn run_copy_image(&mut self, source: u32, destination: u32, row: ImageCopyRow)
        requires { ImageRowReady self.old source destination row.region row.number }
        ensures { (m : ImageInfo) → shape_of self.old destination ≡ Some m → HasRun self.old self.new (piece_in (copy_image_pieces source destination m row.region) row.number) }
    {
        if source == destination {
            self.run_in_one(destination, row);
        } else {
            self.run_across(source, destination, row);
        }
    }

    /// Runs a row of a region of a copy within an image.
    fn run_in_one(&mut self, image: u32, row: ImageCopyRow)
        requires { ImageRowReady self.old image image row.region row.number }
        ensures { (m : ImageInfo) → shape_of self.old image ≡ Some m → HasRun self.old self.new (piece_in (copy_image_pieces image image m row.region) row.number) }
    {
        texels_apart();
        texels_inside();
        let at = self.picture(image);
        let shape = shape_at(&self.shapes, image);
        let copy = CopyImage { region: row.region };
        let region = self.memories.region_mut(at.object);
        copy.run_piece_in_one(row.number, shape, region, at.offset);
    }

    /// Runs a row of a region of a copy from an image to another.
    fn run_across(&mut self, source: u32, destination: u32, row: ImageCopyRow)
        requires ready { ImageRowReady self.old source destination row.region row.number }
        requires two { ¬ (source ≡ destination) }
        ensures { (m : ImageInfo) → shape_of self.old destination ≡ Some m → HasRun self.old self.new (piece_in (copy_image_pieces source destination m row.region) row.number) }
    {
        texels_apart();
        texels_inside();
        let from = self.picture(source);
        let to = self.picture(destination);
        let row = RowAcross {
            row,
            source: shape_at(&self.shapes, source),
            source_start: from.offset,
            destination: shape_at(&self.shapes, destination),
            destination_start: to.offset,
        };
        self.memories.copy_by(from.object, to.object, &row);
    }
}
