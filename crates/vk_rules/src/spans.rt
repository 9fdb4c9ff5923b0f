ghost use Rattle.std.specs.Prelude.{◌≡◌, IfSome, is_some};
ghost use Rattle.vk_model.specs.World.Areas.{Subresources};
ghost use Rattle.vk_model.specs.Rules.Ranges as rules;
ghost use Rattle.vk_rules.specs.Inner.Subresources.{IsSpanOf};

use crate::items::Item;
use vk_model::{ImageInfo, SubresourceRange};

/// What numbers of an image count.
#[derive(Clone, Copy)]
pub enum Axis {
    /// Mip levels.
    Levels,
    /// Array layers.
    Layers,
    /// Texels from the left.
    Columns,
    /// Texels from the top.
    Rows,
}

/// Numbers that a point names and that aren't of the image: none, or some past its last one.
#[derive(Clone, Copy)]
pub struct Outside {
    /// Which item of the point names them.
    pub item: Item,
    /// The id of the image.
    pub image: u32,
    /// What they count.
    pub axis: Axis,
    /// The first one.
    pub first: u32,
    /// How many they are.
    pub count: u32,
    /// How many the image has; of texels, the level that is named.
    pub limit: u32,
}

/// The numbers of a range that aren't of an image.
pub fn range_outside(
    info: &ImageInfo,
    image: u32,
    item: Item,
    range: &SubresourceRange,
) -> Option<Outside>
    ensures broken { is_some result ≡ rules.bad_range info.now range.now }
    ensures reported { IfSome result (IsSpanOf info.now item image (Subresources image range.now)) }
{
    let levels = Outside {
        item,
        image,
        axis: Axis::Levels,
        first: range.first_level,
        count: range.levels,
        limit: info.levels,
    };
    let layers = Outside {
        item,
        image,
        axis: Axis::Layers,
        first: range.first_layer,
        count: range.layers,
        limit: info.layers,
    };
    match refused(levels) {
        Some(found) => Some(found),
        None => refused(layers),
    }
}

/// Numbers, where they are none or some are past the last one of the image.
pub fn refused(numbers: Outside) -> Option<Outside>
    ensures broken { is_some result ≡ rules.is_beyond numbers.limit numbers.first numbers.count }
    ensures reported { IfSome result (λ m. m ≡ numbers) }
{
    let end = u64::from(numbers.first) + u64::from(numbers.count);
    if numbers.count == 0 || end > u64::from(numbers.limit) {
        Some(numbers)
    } else {
        None
    }
}
