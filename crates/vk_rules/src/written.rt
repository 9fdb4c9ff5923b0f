ghost use Rattle.std.specs.Prelude.{◌≡◌, ◌&&◌, nat_lt, is_some, not};
ghost use Rattle.vk_model.specs.Trace.Objects.{image};
ghost use Rattle.vk_model.specs.World.ByteWrites.{byte_writes};
ghost use Rattle.vk_model.specs.World.Ownership.{transfer, releases, family_of, is_transition};
ghost use Rattle.vk_model.specs.Sync.Access.{targets, transition_bytes};
ghost use Rattle.vk_laws.specs.Written as parts;
ghost use Rattle.vk_laws.specs.Written.{IsResourceOf};
ghost use Rattle.vk_history.specs.PointViews.{past};

use vk_history::{History, family_of, is_transition};
use vk_laws::{has_any, has_bytes, has_copied_texel, has_subresource, has_texel, only_if};
use vk_model::{
    BufferImageCopy, Cmd, Element, Families, ImageCopy, ImageElement, SubresourceRange,
};

/// The resource that a command writes bytes of.
pub fn written(history: &History<'_>, command: &Cmd) -> Option<u32>
    ensures { IsResourceOf result (targets (byte_writes (past history.now) command.now)) }
{
    match command {
        Cmd::Fill {
            buffer,
            offset,
            size,
            ..
        } => only_if(size.filled(history.size(*buffer), *offset) > 0, *buffer),
        Cmd::Update { buffer, bytes, .. } => only_if(!bytes.is_empty(), *buffer),
        Cmd::Copy {
            destination,
            regions,
            ..
        } => only_if(has_bytes(regions.as_slice()), *destination),
        Cmd::Clear { image, ranges, .. } => {
            only_if(clears_some(history, *image, ranges.as_slice()), *image)
        }
        Cmd::CopyIn { image, regions, .. } => {
            only_if(copies_some(history, *image, regions.as_slice()), *image)
        }
        Cmd::CopyOut {
            image,
            buffer,
            regions,
            ..
        } => only_if(copies_some(history, *image, regions.as_slice()), *buffer),
        Cmd::CopyImage {
            destination,
            regions,
            ..
        } => only_if(
            copies_image(history, *destination, regions.as_slice()),
            *destination,
        ),
        _ => None,
    }
}

/// The resource that an element of a barrier on a queue writes bytes of: that of a layout transition,
/// unless it's the first half of an ownership transfer.
pub fn written_by_element(history: &History<'_>, queue: u32, element: &Element) -> Option<u32>
    ensures { IsResourceOf result (transition_bytes (past history.now) queue element.now) }
{
    match element {
        Element::Image(on_image) => only_if(changes_some(history, queue, on_image), on_image.image),
        _ => None,
    }
}

fn clears_some(history: &History<'_>, id: u32, ranges: &[SubresourceRange]) -> bool
    ensures { result ≡ (is_some (image (past history.now) id) && parts.some_subresource ranges.now) }
{
    is_image(history, id) && has_subresource(ranges)
}

fn copies_some(history: &History<'_>, id: u32, regions: &[BufferImageCopy]) -> bool
    ensures { result ≡ (is_some (image (past history.now) id) && parts.some_texel regions.now) }
{
    is_image(history, id) && has_texel(regions)
}

fn copies_image(history: &History<'_>, id: u32, regions: &[ImageCopy]) -> bool
    ensures { result ≡ (is_some (image (past history.now) id) && parts.some_copied regions.now) }
{
    is_image(history, id) && has_copied_texel(regions)
}

fn changes_some(history: &History<'_>, queue: u32, on_image: &ImageElement) -> bool
    ensures { result ≡ ((is_transition on_image.now && not (releases (transfer (family_of queue) on_image.now.families))) && (is_some (image (past history.now) on_image.now.image) && (nat_lt 0 on_image.now.range.levels && nat_lt 0 on_image.now.range.layers))) }
{
    is_transition(on_image)
        && !is_release(queue, on_image.families)
        && is_image(history, on_image.image)
        && has_any(&on_image.range)
}

/// Whether an element on a queue is the first half of an ownership transfer.
pub fn is_release(queue: u32, families: Families) -> bool
    ensures { result ≡ releases (transfer (family_of queue) families) }
{
    families.source != families.destination && families.source == family_of(queue)
}

fn is_image(history: &History<'_>, id: u32) -> bool
    ensures { result ≡ is_some (image (past history.now) id) }
{
    history.image(id).is_some()
}
