ghost use Rattle.std.specs.Prelude.{◌≡◌, ℕ, ◌^◌, ◌<◌, length};
ghost use Rattle.vk_events.specs.declared.event.Range.TheVariants as reach;
ghost use Rattle.vk_events.specs.Happens.{is_on};
ghost use Rattle.vk_lag.specs.Lags.{resource_in};
ghost use Rattle.vk_availability.specs.Happening.{Happens};
ghost use Rattle.vk_availability.specs.Inner.CatchingUp.{CatchesUpOn};

use crate::ranges::{catch_up_buffer, catch_up_image};
use vk_events::{Event, Range};
use vk_lag::{Due, Lags, Writer};
use vk_model::{Length, SubresourceRange};
use vk_resources::Resources;

/// A dependency, a wait or a signal happens: memory catches up with what earlier commands of its queue
/// wrote, of the bytes that it makes available. It takes no memory.
pub fn happen(lags: &mut Lags, resources: &Resources, event: Event)
    requires number { event.number < 2 ^ 32 }
    ensures room { (id : ℕ) → length (resource_in lags.new id) ≡ length (resource_in lags.old id) }
    ensures happens { Happens resources.now lags.old lags.new event }
{
    if event.makes_available {
        let writer = Writer {
            queue: event.queue,
            node: event.number as u32,
        };
        catch_up_on(lags, resources, event.range, Due::Before(writer));
    }
}

/// Memory catches up with what is due of the bytes in a range.
fn catch_up_on(lags: &mut Lags, resources: &Resources, range: Range, due: Due)
    ensures { CatchesUpOn resources.now (is_on range) due lags.old lags.new }
{
    match range {
        Range::All => lags.catch_up_all(due),
        Range::Buffer {
            buffer,
            offset,
            size,
        } => catch_up_on_buffer(lags, resources, buffer, offset, size, due),
        Range::Image { image, range } => catch_up_on_image(lags, resources, image, range, due),
    }
}

/// The same of a range of a buffer. An image of that id has none of its bytes.
fn catch_up_on_buffer(
    lags: &mut Lags,
    resources: &Resources,
    buffer: u32,
    offset: u64,
    length: Length,
    due: Due,
)
    ensures { CatchesUpOn resources.now (is_on (reach.Buffer buffer offset length)) due lags.old lags.new }
{
    if resources.shape(buffer).is_some() {
        return;
    }
    if let Some(spot) = resources.spot(buffer) {
        catch_up_buffer(lags, buffer, spot.size, offset, length, due);
    }
}

/// The same of levels and layers of an image.
fn catch_up_on_image(
    lags: &mut Lags,
    resources: &Resources,
    image: u32,
    range: SubresourceRange,
    due: Due,
)
    ensures { CatchesUpOn resources.now (is_on (reach.Image image range)) due lags.old lags.new }
{
    if let Some(shape) = resources.shape(image) {
        catch_up_image(lags, image, shape, range, due);
    }
}
