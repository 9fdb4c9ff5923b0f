ghost use Rattle.std.specs.Prelude.{◌≡◌, ◌||◌, IfSome, is_some};
ghost use Rattle.vk_model.specs.Trace.Image as shape;
ghost use Rattle.vk_model.specs.World.Areas as areas;
ghost use Rattle.vk_model.specs.Rules.Ranges as rules;
ghost use Rattle.vk_overlaps.specs.Boxes.{box_of};
ghost use Rattle.vk_rules.specs.Inner.Subresources.{IsSpanOf};

use crate::items::Item;
use crate::spans::{Axis, Outside, refused};
use vk_image_tiles::{level_height, level_width};
use vk_model::ImageInfo;
use vk_overlaps::TexelBox;

/// The numbers of a box that aren't of an image.
pub fn box_outside(info: &ImageInfo, image: u32, item: Item, texels: TexelBox) -> Option<Outside>
    ensures broken { is_some result ≡ rules.bad_box info.now (box_of texels) }
    ensures reported { IfSome result (IsSpanOf info.now item image (areas.Texels image (box_of texels))) }
{
    match layers_outside(info, image, item, texels) {
        Some(found) => Some(found),
        None => plane_outside(info, image, item, texels),
    }
}

fn layers_outside(info: &ImageInfo, image: u32, item: Item, texels: TexelBox) -> Option<Outside>
    ensures broken { is_some result ≡ (rules.is_beyond info.now.levels texels.level 1 || rules.is_beyond info.now.layers texels.first_layer texels.layers) }
    ensures reported { IfSome result (IsSpanOf info.now item image (areas.Texels image (box_of texels))) }
{
    let levels = Outside {
        item,
        image,
        axis: Axis::Levels,
        first: texels.level,
        count: 1,
        limit: info.levels,
    };
    let layers = Outside {
        item,
        image,
        axis: Axis::Layers,
        first: texels.first_layer,
        count: texels.layers,
        limit: info.layers,
    };
    match refused(levels) {
        Some(found) => Some(found),
        None => refused(layers),
    }
}

fn plane_outside(info: &ImageInfo, image: u32, item: Item, texels: TexelBox) -> Option<Outside>
    ensures broken { is_some result ≡ (rules.is_beyond (shape.level_width info.now texels.level) texels.x texels.width || rules.is_beyond (shape.level_height info.now texels.level) texels.y texels.height) }
    ensures reported { IfSome result (IsSpanOf info.now item image (areas.Texels image (box_of texels))) }
{
    let columns = Outside {
        item,
        image,
        axis: Axis::Columns,
        first: texels.x,
        count: texels.width,
        limit: level_width(info, texels.level),
    };
    let rows = Outside {
        item,
        image,
        axis: Axis::Rows,
        first: texels.y,
        count: texels.height,
        limit: level_height(info, texels.level),
    };
    match refused(columns) {
        Some(found) => Some(found),
        None => refused(rows),
    }
}
