ghost use Rattle.std.specs.Prelude.{◌≡◌, ◌+◌, ◌*◌, ◌/◌, ◌%◌, ◌^◌, ◌<◌, ◌≤◌, ℕ, false, length, slice_index};
ghost use Rattle.vk_image_transfer.specs.Inner.Lines.{line_place, line_texel, line_first};
ghost use Rattle.vk_image_transfer.specs.Held.{ImageOf, one_held, two_held, image_at, bytes_held};
ghost use Rattle.vk_image_transfer.specs.Pieces.{piece_in, copy_image_pieces};
ghost use Rattle.vk_image_transfer.specs.Rows.{AreWritten, BoxFits, image_row};
ghost use Rattle.vk_image_transfer.specs.Stretches.{WritesAt, is_among};
ghost use Rattle.vk_model.specs.declared.resource.ImageInfo.{ImageInfo};
ghost use Rattle.vk_model.specs.Trace.Image as shape;
ghost use Rattle.vk_model.specs.World.Areas.{source_box, destination_box, boxes_meet};
ghost use Rattle.vk_transfer.specs.Ran.{AreApart, HaveRun};

use crate::lines::Line;
use crate::moving::{copy_texels, copy_texels_within};
use crate::rows::{RowPlace, image_line, row_count};
use crate::stretches::RowStretches;
use vk_heap::Region;
use vk_image_tiles::{Shape, level_height, level_width, texel_size};
use vk_model::{ImageCopy, texels_apart, texels_inside};

/// One region of a copy from an image to an image (Vulkan, "Copying Data Between Images").
#[derive(Clone, Copy, Debug, PartialEq, Eq)]
pub struct CopyImage {
    /// Where it lies in both images.
    pub region: ImageCopy,
}

impl CopyImage {
    /// How many pieces it is run in: one for each row.
    pub fn pieces(&self) -> u64
        ensures { (s d : ℕ) (m : ImageInfo) → result ≡ length (copy_image_pieces s d m self.now.region) }
    {
        let region = &self.region;
        row_count(region.width, region.height, region.layers)
    }

    /// The bytes that the piece of this number writes, where the destination lies from `start` on.
    pub fn stretches(&self, number: u64, to: &Shape, start: u64) -> RowStretches
        requires destination_region { BoxFits to.now (destination_box self.now.region) }
        requires piece { number < self.now.region.layers * self.now.region.height }
        requires columns { 0 < self.now.region.width }
        requires end { start + shape.image_size to.now to.now.tiling < 2 ^ 64 }
        ensures { (s d : ℕ) → WritesAt (is_among result) (piece_in (copy_image_pieces s d to.now self.now.region) number) d (ImageOf to.now) start }
    {
        texels_apart();
        let info = to.image();
        let place = RowPlace::new(number, self.region.layers, self.region.height);
        let line = self.destination_line(place, to, start);
        let _width = level_width(&info, self.region.destination_level);
        let texel = u64::from(texel_size(info.format));
        RowStretches::new(line, self.region.width, texel)
    }

    /// Runs the piece of this number between two regions of memory: the source lies in `source`
    /// from `source_start` on, the destination in `destination` from `destination_start` on.
    pub fn run_piece(
        &self,
        number: u64,
        from: &Shape,
        source: &Region,
        source_start: u64,
        to: &Shape,
        destination: &mut Region,
        destination_start: u64,
    )
        requires source_region { BoxFits from.now (source_box self.now.region) }
        requires destination_region { BoxFits to.now (destination_box self.now.region) }
        requires texels { shape.texel from.now.format ≡ shape.texel to.now.format }
        requires piece { number < self.now.region.layers * self.now.region.height }
        requires read { source_start + shape.image_size from.now from.now.tiling ≤ length source.now }
        requires room { destination_start + shape.image_size to.now to.now.tiling ≤ length destination.old }
        ensures ran { (s d : ℕ) → ¬ (s ≡ d) → 0 < self.now.region.width → HaveRun (piece_in (copy_image_pieces s d to.now self.now.region) number)
            (bytes_held (two_held s (image_at source.now source_start from.now) d (image_at destination.old destination_start to.now)))
            (bytes_held (two_held s (image_at source.now source_start from.now) d (image_at destination.new destination_start to.now))) }
        ensures kept { AreWritten destination.old destination.new self.now.region.width (shape.texel to.now.format)
            (image_row to.now destination_start self.now.region.destination_level (self.now.region.destination_first_layer + number / self.now.region.height) self.now.region.destination_x (self.now.region.destination_y + number % self.now.region.height))
            (λ x p. slice_index source.now (image_row from.now source_start self.now.region.source_level (self.now.region.source_first_layer + number / self.now.region.height) self.now.region.source_x (self.now.region.source_y + number % self.now.region.height) x + p)) }
    {
        texels_apart();
        let info = to.image();
        let texel = u64::from(texel_size(info.format));
        let place = RowPlace::new(number, self.region.layers, self.region.height);
        let _sizes = (source.size(), destination.size());
        let _source_width = level_width(&from.image(), self.region.source_level);
        let _destination_width = level_width(&info, self.region.destination_level);
        let read = self.source_line(place, from, source_start);
        let written = self.destination_line(place, to, destination_start);
        copy_texels(
            source,
            &read,
            destination,
            &written,
            self.region.width,
            texel,
        );
    }

    /// Runs the piece of this number within one image, which lies in `region` from `start` on.
    pub fn run_piece_in_one(&self, number: u64, image: &Shape, region: &mut Region, start: u64)
        requires source_region { BoxFits image.now (source_box self.now.region) }
        requires destination_region { BoxFits image.now (destination_box self.now.region) }
        requires apart { boxes_meet (source_box self.now.region) (destination_box self.now.region) ≡ false }
        requires piece { number < self.now.region.layers * self.now.region.height }
        requires inside { start + shape.image_size image.now image.now.tiling ≤ length region.old }
        ensures ran { (i : ℕ) → 0 < self.now.region.width → HaveRun (piece_in (copy_image_pieces i i image.now self.now.region) number)
            (bytes_held (one_held i (image_at region.old start image.now))) (bytes_held (one_held i (image_at region.new start image.now))) }
        ensures kept { AreWritten region.old region.new self.now.region.width (shape.texel image.now.format)
            (image_row image.now start self.now.region.destination_level (self.now.region.destination_first_layer + number / self.now.region.height) self.now.region.destination_x (self.now.region.destination_y + number % self.now.region.height))
            (λ x p. slice_index region.old (image_row image.now start self.now.region.source_level (self.now.region.source_first_layer + number / self.now.region.height) self.now.region.source_x (self.now.region.source_y + number % self.now.region.height) x + p)) }
    {
        texels_apart();
        let info = image.image();
        let texel = u64::from(texel_size(info.format));
        let place = RowPlace::new(number, self.region.layers, self.region.height);
        let _size = region.size();
        let _source_width = level_width(&info, self.region.source_level);
        let _destination_width = level_width(&info, self.region.destination_level);
        let read = self.source_line(place, image, start);
        let written = self.destination_line(place, image, start);
        copy_texels_within(region, &read, &written, self.region.width, texel);
    }

    /// Runs the piece of this number between two images within one region of memory: the source
    /// lies there from `source_start` on, the destination from `destination_start` on, and they
    /// share no byte.
    pub fn run_piece_within(
        &self,
        number: u64,
        region: &mut Region,
        from: &Shape,
        source_start: u64,
        to: &Shape,
        destination_start: u64,
    )
        requires source_region { BoxFits from.now (source_box self.now.region) }
        requires destination_region { BoxFits to.now (destination_box self.now.region) }
        requires texels { shape.texel from.now.format ≡ shape.texel to.now.format }
        requires piece { number < self.now.region.layers * self.now.region.height }
        requires read { source_start + shape.image_size from.now from.now.tiling ≤ length region.old }
        requires room { destination_start + shape.image_size to.now to.now.tiling ≤ length region.old }
        requires apart { AreApart source_start (shape.image_size from.now from.now.tiling) destination_start (shape.image_size to.now to.now.tiling) }
        ensures ran { (s d : ℕ) → ¬ (s ≡ d) → 0 < self.now.region.width → HaveRun (piece_in (copy_image_pieces s d to.now self.now.region) number)
            (bytes_held (two_held s (image_at region.old source_start from.now) d (image_at region.old destination_start to.now)))
            (bytes_held (two_held s (image_at region.new source_start from.now) d (image_at region.new destination_start to.now))) }
        ensures kept { AreWritten region.old region.new self.now.region.width (shape.texel to.now.format)
            (image_row to.now destination_start self.now.region.destination_level (self.now.region.destination_first_layer + number / self.now.region.height) self.now.region.destination_x (self.now.region.destination_y + number % self.now.region.height))
            (λ x p. slice_index region.old (image_row from.now source_start self.now.region.source_level (self.now.region.source_first_layer + number / self.now.region.height) self.now.region.source_x (self.now.region.source_y + number % self.now.region.height) x + p)) }
    {
        texels_apart();
        texels_inside();
        let info = to.image();
        let texel = u64::from(texel_size(info.format));
        let place = RowPlace::new(number, self.region.layers, self.region.height);
        let _size = region.size();
        let _source_width = level_width(&from.image(), self.region.source_level);
        let _destination_width = level_width(&info, self.region.destination_level);
        let from_line = self.source_line(place, from, source_start);
        let to_line = self.destination_line(place, to, destination_start);
        copy_texels_within(region, &from_line, &to_line, self.region.width, texel);
    }

    /// A row of the region in its source.
    fn source_line(&self, place: RowPlace, image: &Shape, start: u64) -> Line
        requires region { BoxFits image.now (source_box self.now.region) }
        requires layer { place.layer < self.now.region.layers }
        requires row { place.row < self.now.region.height }
        ensures places { (x : ℕ) → line_place result x ≡ image_row image.now start self.now.region.source_level (self.now.region.source_first_layer + place.layer) self.now.region.source_x (self.now.region.source_y + place.row) x }
        ensures texel { line_texel result ≡ shape.texel image.now.format }
        ensures first { line_first result ≡ self.now.region.source_x }
        ensures inside { (x : ℕ) → self.now.region.source_x + x < shape.level_width image.now self.now.region.source_level → line_place result x + shape.texel image.now.format ≤ start + shape.image_size image.now image.now.tiling }
    {
        let region = &self.region;
        // The image's layers and rows are numbers of 32 bits, so those of a region in it are too.
        let _height = level_height(&image.image(), region.source_level);
        let layer = region.source_first_layer + place.layer;
        let y = region.source_y + place.row;
        image_line(image, start, region.source_level, layer, region.source_x, y)
    }

    /// A row of the region in its destination.
    fn destination_line(&self, place: RowPlace, image: &Shape, start: u64) -> Line
        requires region { BoxFits image.now (destination_box self.now.region) }
        requires layer { place.layer < self.now.region.layers }
        requires row { place.row < self.now.region.height }
        ensures places { (x : ℕ) → line_place result x ≡ image_row image.now start self.now.region.destination_level (self.now.region.destination_first_layer + place.layer) self.now.region.destination_x (self.now.region.destination_y + place.row) x }
        ensures texel { line_texel result ≡ shape.texel image.now.format }
        ensures first { line_first result ≡ self.now.region.destination_x }
        ensures inside { (x : ℕ) → self.now.region.destination_x + x < shape.level_width image.now self.now.region.destination_level → line_place result x + shape.texel image.now.format ≤ start + shape.image_size image.now image.now.tiling }
    {
        let region = &self.region;
        // The image's layers and rows are numbers of 32 bits, so those of a region in it are too.
        let _height = level_height(&image.image(), region.destination_level);
        let layer = region.destination_first_layer + place.layer;
        let y = region.destination_y + place.row;
        image_line(
            image,
            start,
            region.destination_level,
            layer,
            region.destination_x,
            y,
        )
    }
}
