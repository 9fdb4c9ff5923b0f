ghost use Rattle.std.specs.Prelude.{◌≡◌, ◌≤◌, ◌<◌, ◌+◌, ◌&&◌, ◌==◌};
ghost use Rattle.vk_model.specs.Basics.{within};
ghost use Rattle.vk_image_transfer.specs.Held.{BufferOf, ImageOf};
ghost use Rattle.vk_events.specs.declared.event.Range.TheVariants as reach;
ghost use Rattle.vk_events.specs.Happens.{is_on};
ghost use Rattle.vk_lag.specs.Lags.{is_between};
ghost use Rattle.vk_availability.specs.Inner.CatchingUp.{CatchesUp, is_in_part};

use vk_image_tiles::Shape;
use vk_lag::{Due, Lags};
use vk_model::{Length, SubresourceRange, subresources_hold};

/// Memory catches up with what is due of a range of a buffer of so many bytes.
pub(crate) fn catch_up_buffer(
    lags: &mut Lags,
    buffer: u32,
    bytes: u64,
    offset: u64,
    length: Length,
    due: Due,
)
    ensures { CatchesUp buffer (BufferOf bytes) (is_on (reach.Buffer buffer offset length)) due lags.old lags.new }
{
    let end = match length {
        Length::Bytes(count) => offset.saturating_add(count).min(bytes),
        Length::Whole => bytes,
    };
    lags.catch_up(buffer, offset, end, due);
}

/// Memory catches up with what is due of those of some levels and layers that an image has.
pub(crate) fn catch_up_image(
    lags: &mut Lags,
    image: u32,
    shape: &Shape,
    range: SubresourceRange,
    due: Due,
)
    ensures { CatchesUp image (ImageOf shape.now) (is_on (reach.Image image range)) due lags.old lags.new }
{
    let info = shape.image();
    let first = range.first_level;
    let end = first.saturating_add(range.levels).min(info.levels);
    for level in first..end {
        catch_up_level(lags, image, shape, level, range, due);
    }
}

/// The same of one level.
fn catch_up_level(
    lags: &mut Lags,
    image: u32,
    shape: &Shape,
    level: u32,
    range: SubresourceRange,
    due: Due,
)
    requires level_there { level < shape.now.levels }
    ensures { CatchesUp image (ImageOf shape.now) (is_in_part (λ l a. l == level && within range.first_layer range.layers a)) due lags.old lags.new }
{
    let info = shape.image();
    let first = range.first_layer;
    let end = first.saturating_add(range.layers).min(info.layers);
    for layer in first..end {
        catch_up_part(lags, image, shape, level, layer, due);
    }
}

/// The same of one level of one layer.
fn catch_up_part(lags: &mut Lags, image: u32, shape: &Shape, level: u32, layer: u32, due: Due)
    requires level_there { level < shape.now.levels }
    requires layer_there { layer < shape.now.layers }
    ensures { CatchesUp image (ImageOf shape.now) (is_in_part (λ l a. l == level && a == layer)) due lags.old lags.new }
{
    subresources_hold();
    let _image = shape.image();
    let _need = shape.requirements();
    let part = shape.subresource_layout(level, layer);
    lags.catch_up(image, part.offset, part.offset + part.size, due);
}
