ghost use Rattle.std.specs.Prelude.{◌≡◌, ◌+◌, ◌*◌, ◌<◌, ◌≤◌, ℕ, List, All, length, sum_by};
ghost use Rattle.std.specs.List.{Contains};
ghost use Rattle.vk_image_transfer.specs.Pieces.{piece_in, all_cleared, range_rows, RangeFits};
ghost use Rattle.vk_model.specs.Run.Pieces.{level_pieces};
ghost use Rattle.vk_model.specs.Trace.Image as shape;

use crate::clearing::LevelClear;
use vk_image_tiles::{Shape, level_height};
use vk_model::{ImageInfo, SubresourceRange};

/// A clear of some ranges of an image (Vulkan, "Clearing Images Outside a Render Pass Instance").
#[derive(Clone, Copy, Drop)]
pub struct Clear<'r> {
    /// The ranges that are cleared.
    pub ranges: &'r [SubresourceRange],
    /// The four components of the color; one too large for the format keeps its low bits.
    pub color: [u32; 4],
}

/// A row of a level that is cleared.
#[derive(Clone, Copy, Debug, PartialEq, Eq)]
pub struct ClearRow {
    /// The level.
    pub clear: LevelClear,
    /// The number of the piece among those of the level.
    pub number: u64,
}

impl<'r> Clear<'r> {
    /// How many pieces it is run in: one for each row of each level of each range. An image has 13
    /// levels at most, of 256 layers and 4,096 rows.
    pub fn pieces(&self, image: &Shape) -> u64
        requires ranges { All (RangeFits image.now) self.now.ranges.now }
        requires few { length self.now.ranges.now < 549755813888 }
        ensures rows { result ≡ sum_by (range_rows image.now) self.now.ranges.now }
        ensures pieces { (i : ℕ) → result ≡ length (all_cleared i self.now.color image.now self.now.ranges.now) }
    {
        let info = image.image();
        let mut count = 0;
        for range in self.ranges {
            count += rows_of(&info, range);
        }
        count
    }

    /// Finds the piece of a number. It walks the ranges: those of a clear that breaks no rule don't
    /// meet, so they are 13 times 256 at most.
    pub fn find(&self, number: u64, image: &Shape) -> ClearRow
        requires ranges { All (RangeFits image.now) self.now.ranges.now }
        requires piece { number < sum_by (range_rows image.now) self.now.ranges.now }
        ensures piece { (i : ℕ) → piece_in (all_cleared i self.now.color image.now self.now.ranges.now) number ≡ piece_in (level_pieces i result.clear.color image.now result.clear.range result.clear.level) result.number }
        ensures color { result.clear.color ≡ self.now.color }
        ensures range { Contains self.now.ranges.now result.clear.range }
        ensures low { result.clear.range.first_level ≤ result.clear.level }
        ensures high { result.clear.level < result.clear.range.first_level + result.clear.range.levels }
        ensures row { result.number < result.clear.range.layers * shape.level_height image.now result.clear.level }
    {
        let info = image.image();
        let mut left = number;
        for range in self.ranges {
            let rows = rows_of(&info, range);
            if left < rows {
                return self.level_of(range, left, &info);
            }
            left -= rows;
        }
        unreachable!()
    }

    /// Finds the piece of a number among those of a range.
    fn level_of(&self, range: &SubresourceRange, number: u64, image: &ImageInfo) -> ClearRow
        requires range { RangeFits image.now range.now }
        requires levels { image.now.levels ≤ 14 }
        requires piece { number < range_rows image.now range.now }
        ensures range { result.clear.range ≡ range.now }
        ensures color { result.clear.color ≡ self.now.color }
        ensures low { range.now.first_level ≤ result.clear.level }
        ensures high { result.clear.level < range.now.first_level + range.now.levels }
        ensures row { result.number < range.now.layers * shape.level_height image.now result.clear.level }
        ensures number { sum_by (level_rows image.now range.now) (below (result.clear.level - range.now.first_level)) + result.number ≡ number }
    {
        let mut left = number;
        for step in 0..range.levels {
            let level = range.first_level + step;
            let rows = u64::from(range.layers) * u64::from(level_height(image, level));
            if left < rows {
                let clear = LevelClear {
                    range: *range,
                    level,
                    color: self.color,
                };
                return ClearRow {
                    clear,
                    number: left,
                };
            }
            left -= rows;
        }
        unreachable!()
    }
}

ghost use Rattle.std.specs.Prelude.{◌-◌};
ghost use Rattle.vk_image_transfer.specs.Pieces.{level_rows};
ghost use Rattle.vk_model.specs.Basics.{below};

/// How many rows a range has in all its levels.
fn rows_of(image: &ImageInfo, range: &SubresourceRange) -> u64
    requires range { RangeFits image.now range.now }
    requires levels { image.now.levels ≤ 14 }
    requires layers { image.now.layers ≤ 256 }
    requires height { image.now.height ≤ 4096 }
    ensures rows { result ≡ range_rows image.now range.now }
    ensures few { result ≤ 14680064 }
{
    let mut rows = 0;
    for step in 0..range.levels {
        let level = range.first_level + step;
        rows += u64::from(range.layers) * u64::from(level_height(image, level));
    }
    rows
}
