ghost use Rattle.std.specs.Prelude.{◌≡◌, ◌+◌, ◌-◌, ◌*◌, ◌/◌, ◌%◌, ◌^◌, ◌<◌, ◌≤◌, ℕ, length, slice_index};
ghost use Rattle.vk_image_transfer.specs.Held.{ImageOf, two_held, buffer_at, image_at, bytes_held};
ghost use Rattle.vk_image_transfer.specs.Pieces.{piece_in, copy_in_pieces};
ghost use Rattle.vk_image_transfer.specs.Rows.{AreWritten, BoxFits, LiesApart, RegionFits, image_row, buffer_row};
ghost use Rattle.vk_image_transfer.specs.Stretches.{WritesAt, is_among};
ghost use Rattle.vk_model.specs.declared.resource.ImageInfo.{ImageInfo};
ghost use Rattle.vk_model.specs.Trace.Image as shape;
ghost use Rattle.vk_model.specs.World.Areas.{region_box};
ghost use Rattle.vk_transfer.specs.Ran.{AreApart, HaveRun};

use crate::moving::{copy_texels, copy_texels_within};
use crate::rows::{RowPlace, buffer_line, region_line, row_count};
use crate::stretches::RowStretches;
use vk_heap::Region;
use vk_image_tiles::{Shape, level_width, texel_size};
use vk_model::{BufferImageCopy, texels_apart, texels_inside};

/// One region of a copy from a buffer to an image (Vulkan, "Copying Data Between Buffers and
/// Images").
#[derive(Clone, Copy, Debug, PartialEq, Eq)]
pub struct CopyIn {
    /// Where it lies in the buffer and in the image.
    pub region: BufferImageCopy,
}

impl CopyIn {
    /// How many pieces it is run in: one for each row.
    pub fn pieces(&self) -> u64
        ensures { (b i : ℕ) (m : ImageInfo) → result ≡ length (copy_in_pieces b i m self.now.region) }
    {
        let region = &self.region;
        row_count(region.width, region.height, region.layers)
    }

    /// The bytes that the piece of this number writes, where the image lies from `start` on.
    pub fn stretches(&self, number: u64, image: &Shape, start: u64) -> RowStretches
        requires region { BoxFits image.now (region_box self.now.region) }
        requires piece { number < self.now.region.layers * self.now.region.height }
        requires columns { 0 < self.now.region.width }
        requires end { start + shape.image_size image.now image.now.tiling < 2 ^ 64 }
        ensures { (b i : ℕ) → WritesAt (is_among result) (piece_in (copy_in_pieces b i image.now self.now.region) number) i (ImageOf image.now) start }
    {
        texels_apart();
        let info = image.image();
        let place = RowPlace::new(number, self.region.layers, self.region.height);
        let line = region_line(&self.region, place, image, start);
        let _width = level_width(&info, self.region.level);
        let texel = u64::from(texel_size(info.format));
        RowStretches::new(line, self.region.width, texel)
    }

    /// Runs the piece of this number between two regions of memory: the buffer lies in `source`
    /// from `source_start` on, the image in `destination` from `destination_start` on.
    pub fn run_piece(
        &self,
        number: u64,
        source: &Region,
        source_start: u64,
        image: &Shape,
        destination: &mut Region,
        destination_start: u64,
    )
        requires region { BoxFits image.now (region_box self.now.region) }
        requires piece { number < self.now.region.layers * self.now.region.height }
        requires columns { 0 < self.now.region.width }
        requires read { RegionFits self.now.region (shape.texel image.now.format) (length source.now - source_start) }
        requires room { destination_start + shape.image_size image.now image.now.tiling ≤ length destination.old }
        ensures ran { (b i n : ℕ) → ¬ (b ≡ i) → RegionFits self.now.region (shape.texel image.now.format) n → HaveRun (piece_in (copy_in_pieces b i image.now self.now.region) number)
            (bytes_held (two_held b (buffer_at source.now source_start n) i (image_at destination.old destination_start image.now)))
            (bytes_held (two_held b (buffer_at source.now source_start n) i (image_at destination.new destination_start image.now))) }
        ensures kept { AreWritten destination.old destination.new self.now.region.width (shape.texel image.now.format)
            (image_row image.now destination_start self.now.region.level (self.now.region.first_layer + number / self.now.region.height) self.now.region.x (self.now.region.y + number % self.now.region.height))
            (λ x p. slice_index source.now (buffer_row self.now.region (shape.texel image.now.format) source_start (number / self.now.region.height) (number % self.now.region.height) x + p)) }
    {
        texels_apart();
        let info = image.image();
        let texel = u64::from(texel_size(info.format));
        let place = RowPlace::new(number, self.region.layers, self.region.height);
        let _sizes = (source.size(), destination.size());
        let from = buffer_line(&self.region, texel, source_start, place);
        let to = region_line(&self.region, place, image, destination_start);
        let _width = level_width(&info, self.region.level);
        copy_texels(source, &from, destination, &to, self.region.width, texel);
    }

    /// Runs the piece of this number within one region of memory: the buffer lies there from
    /// `source_start` on, the image from `destination_start` on, and they share no byte.
    pub fn run_piece_within(
        &self,
        number: u64,
        region: &mut Region,
        source_start: u64,
        image: &Shape,
        destination_start: u64,
    )
        requires region { BoxFits image.now (region_box self.now.region) }
        requires piece { number < self.now.region.layers * self.now.region.height }
        requires columns { 0 < self.now.region.width }
        requires read { RegionFits self.now.region (shape.texel image.now.format) (length region.old - source_start) }
        requires room { destination_start + shape.image_size image.now image.now.tiling ≤ length region.old }
        requires apart { LiesApart self.now.region (shape.texel image.now.format) source_start destination_start (shape.image_size image.now image.now.tiling) }
        ensures ran { (b i n : ℕ) → ¬ (b ≡ i) → RegionFits self.now.region (shape.texel image.now.format) n → AreApart source_start n destination_start (shape.image_size image.now image.now.tiling)
            → HaveRun (piece_in (copy_in_pieces b i image.now self.now.region) number)
            (bytes_held (two_held b (buffer_at region.old source_start n) i (image_at region.old destination_start image.now)))
            (bytes_held (two_held b (buffer_at region.new source_start n) i (image_at region.new destination_start image.now))) }
        ensures kept { AreWritten region.old region.new self.now.region.width (shape.texel image.now.format)
            (image_row image.now destination_start self.now.region.level (self.now.region.first_layer + number / self.now.region.height) self.now.region.x (self.now.region.y + number % self.now.region.height))
            (λ x p. slice_index region.old (buffer_row self.now.region (shape.texel image.now.format) source_start (number / self.now.region.height) (number % self.now.region.height) x + p)) }
    {
        texels_apart();
        texels_inside();
        let info = image.image();
        let texel = u64::from(texel_size(info.format));
        let place = RowPlace::new(number, self.region.layers, self.region.height);
        let _size = region.size();
        let from = buffer_line(&self.region, texel, source_start, place);
        let to = region_line(&self.region, place, image, destination_start);
        let _width = level_width(&info, self.region.level);
        copy_texels_within(region, &from, &to, self.region.width, texel);
    }
}
