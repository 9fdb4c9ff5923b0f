ghost use Rattle.std.specs.Prelude.{◌≡◌, ◌+◌, ◌*◌, ◌/◌, ◌%◌, ◌^◌, ◌<◌, ◌≤◌, ℕ, length};
ghost use Rattle.vk_image_transfer.specs.Held.{ImageOf, one_held, image_at, bytes_held};
ghost use Rattle.vk_image_transfer.specs.Pieces.{piece_in};
ghost use Rattle.vk_image_transfer.specs.Rows.{AreWritten, BoxFits, image_row, level_box};
ghost use Rattle.vk_image_transfer.specs.Stretches.{WritesAt, is_among};
ghost use Rattle.vk_model.specs.Run.Pieces.{level_pieces};
ghost use Rattle.vk_model.specs.Trace.Image as shape;
ghost use Rattle.vk_model.specs.World.ByteWrites.{color_byte};
ghost use Rattle.vk_transfer.specs.Ran.{HaveRun};

use crate::colors::color_bytes;
use crate::moving::fill_texels;
use crate::rows::{RowPlace, image_line};
use crate::stretches::RowStretches;
use vk_heap::Region;
use vk_image_tiles::{Shape, level_height, level_width, texel_size};
use vk_model::{SubresourceRange, texels_apart};

/// A clear of one level of some layers of an image (Vulkan, "Clearing Images Outside a Render Pass
/// Instance").
#[derive(Clone, Copy, Debug, PartialEq, Eq)]
pub struct LevelClear {
    /// The range that is cleared.
    pub range: SubresourceRange,
    /// The level, one of the range's.
    pub level: u32,
    /// The four components of the color; one too large for the format keeps its low bits.
    pub color: [u32; 4],
}

impl LevelClear {
    /// How many pieces it is run in: one for each row.
    pub fn pieces(&self, image: &Shape) -> u64
        ensures { (i : ℕ) → result ≡ length (level_pieces i self.now.color image.now self.now.range self.now.level) }
    {
        let rows = level_height(&image.image(), self.level);
        u64::from(self.range.layers) * u64::from(rows)
    }

    /// The bytes that the piece of this number writes, where the image lies from `start` on.
    pub fn stretches(&self, number: u64, image: &Shape, start: u64) -> RowStretches
        requires level { BoxFits image.now (level_box image.now self.now.range self.now.level) }
        requires end { start + shape.image_size image.now image.now.tiling < 2 ^ 64 }
        requires piece { number < self.now.range.layers * shape.level_height image.now self.now.level }
        ensures { (i : ℕ) → WritesAt (is_among result) (piece_in (level_pieces i self.now.color image.now self.now.range self.now.level) number) i (ImageOf image.now) start }
    {
        texels_apart();
        let info = image.image();
        let place = RowPlace::new(number, self.range.layers, level_height(&info, self.level));
        let layer = self.range.first_layer + place.layer;
        let texels = image_line(image, start, self.level, layer, 0, place.row);
        let texel = u64::from(texel_size(info.format));
        RowStretches::new(texels, level_width(&info, self.level), texel)
    }

    /// Runs the piece of this number on the region in which the image lies from `start` on.
    pub fn run_piece(&self, number: u64, image: &Shape, region: &mut Region, start: u64)
        requires level { BoxFits image.now (level_box image.now self.now.range self.now.level) }
        requires inside { start + shape.image_size image.now image.now.tiling ≤ length region.old }
        requires piece { number < self.now.range.layers * shape.level_height image.now self.now.level }
        ensures ran { (i : ℕ) → HaveRun (piece_in (level_pieces i self.now.color image.now self.now.range self.now.level) number)
            (bytes_held (one_held i (image_at region.old start image.now))) (bytes_held (one_held i (image_at region.new start image.now))) }
        ensures kept { AreWritten region.old region.new (shape.level_width image.now self.now.level) (shape.texel image.now.format)
            (image_row image.now start self.now.level (self.now.range.first_layer + number / shape.level_height image.now self.now.level) 0 (number % shape.level_height image.now self.now.level))
            (λ x p. color_byte image.now self.now.color p) }
    {
        texels_apart();
        let info = image.image();
        let place = RowPlace::new(number, self.range.layers, level_height(&info, self.level));
        let layer = self.range.first_layer + place.layer;
        let line = image_line(image, start, self.level, layer, 0, place.row);
        let width = level_width(&info, self.level);
        let texel = u64::from(texel_size(info.format));
        fill_texels(
            region,
            &line,
            width,
            texel,
            &color_bytes(&info, &self.color),
        );
    }
}
