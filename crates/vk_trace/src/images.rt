ghost use Rattle.std.specs.Prelude.{◌≡◌, Some, OnOk, codes};
ghost use Rattle.vk_trace.specs.Members.{after_word};
ghost use Rattle.vk_trace.specs.Trace.{format_value, tiling_value, subresource_range, image_element, buffer_image_region, image_region, color_value, command_rows, entry_rows};
ghost use Rattle.vk_trace.specs.Inner.Gives.{Gives};
ghost use Rattle.vk_trace.specs.Inner.Ahead.{ahead, whole};

use crate::errors::ReadTraceError;
use crate::members::{Member, first};
use crate::tokens::{Reading, Tokens};
use bitflags::Flags;
use std::alloc::Global;
use vk_model::{
    Accesses, BufferImageCopy, Cmd, Dependency, Entry, Families, Format, ImageCopy, ImageElement,
    ImageInfo, Kind, Layout, Place, Sharing, Stages, SubresourceRange, Usage,
};

impl Member for Format {
    ghost means = { format_value };

    #[tactic(auto, unfolding(crate::specs::Trace::format_value))]
    fn member(_alloc: Global, tokens: &mut Tokens<'_>) -> Reading<Format> {
        match tokens.text()? {
            "R8_UINT" => Ok(Format::R8Uint),
            "R8G8_UINT" => Ok(Format::R8G8Uint),
            "R8G8B8A8_UINT" => Ok(Format::R8G8B8A8Uint),
            "R16_UINT" => Ok(Format::R16Uint),
            "R32_UINT" => Ok(Format::R32Uint),
            "R32G32_UINT" => Ok(Format::R32G32Uint),
            "R32G32B32A32_UINT" => Ok(Format::R32G32B32A32Uint),
            _ => Err(ReadTraceError::NotTrace),
        }
    }
}

impl Member for Kind {
    ghost means = { tiling_value };

    #[tactic(auto, unfolding(crate::specs::Trace::tiling_value))]
    fn member(_alloc: Global, tokens: &mut Tokens<'_>) -> Reading<Kind> {
        match tokens.text()? {
            "optimal" => Ok(Kind::Optimal),
            "linear" => Ok(Kind::Linear),
            _ => Err(ReadTraceError::NotTrace),
        }
    }
}

impl Member for SubresourceRange {
    ghost means = { subresource_range };

    #[tactic(auto, unfolding(crate::specs::Trace::subresource_range))]
    fn member(alloc: Global, tokens: &mut Tokens<'_>) -> Reading<SubresourceRange> {
        tokens.begin()?;
        let first_level = first::<u32>(alloc, tokens)?;
        let levels = first::<u32>(alloc, tokens)?;
        let first_layer = first::<u32>(alloc, tokens)?;
        let layers = first::<u32>(alloc, tokens)?;
        tokens.end()?;
        Ok(SubresourceRange {
            first_level,
            levels,
            first_layer,
            layers,
        })
    }
}

impl Member for ImageElement {
    ghost means = { image_element };

    #[tactic(auto, unfolding(crate::specs::Trace::image_element))]
    fn member(alloc: Global, tokens: &mut Tokens<'_>) -> Reading<ImageElement> {
        tokens.begin()?;
        let source_stages = first::<u32>(alloc, tokens)?;
        let source_accesses = first::<u32>(alloc, tokens)?;
        let destination_stages = first::<u32>(alloc, tokens)?;
        let destination_accesses = first::<u32>(alloc, tokens)?;
        let source = first::<u32>(alloc, tokens)?;
        let destination = first::<u32>(alloc, tokens)?;
        let image = first::<u32>(alloc, tokens)?;
        let old_layout = first::<u32>(alloc, tokens)?;
        let new_layout = first::<u32>(alloc, tokens)?;
        let range = first::<SubresourceRange>(alloc, tokens)?;
        tokens.end()?;
        Ok(ImageElement {
            dependency: Dependency {
                source_stages: Stages::from_bits_retain(source_stages),
                source_accesses: Accesses::from_bits_retain(source_accesses),
                destination_stages: Stages::from_bits_retain(destination_stages),
                destination_accesses: Accesses::from_bits_retain(destination_accesses),
            },
            families: Families {
                source,
                destination,
            },
            image,
            old_layout: Layout::new(old_layout),
            new_layout: Layout::new(new_layout),
            range,
        })
    }
}

impl Member for BufferImageCopy {
    ghost means = { buffer_image_region };

    #[tactic(auto, unfolding(crate::specs::Trace::buffer_image_region))]
    fn member(alloc: Global, tokens: &mut Tokens<'_>) -> Reading<BufferImageCopy> {
        tokens.begin()?;
        let buffer_offset = first::<u64>(alloc, tokens)?;
        let row_length = first::<u32>(alloc, tokens)?;
        let image_height = first::<u32>(alloc, tokens)?;
        let level = first::<u32>(alloc, tokens)?;
        let first_layer = first::<u32>(alloc, tokens)?;
        let layers = first::<u32>(alloc, tokens)?;
        let x = first::<u32>(alloc, tokens)?;
        let y = first::<u32>(alloc, tokens)?;
        let width = first::<u32>(alloc, tokens)?;
        let height = first::<u32>(alloc, tokens)?;
        tokens.end()?;
        Ok(BufferImageCopy {
            buffer_offset,
            row_length,
            image_height,
            level,
            first_layer,
            layers,
            x,
            y,
            width,
            height,
        })
    }
}

impl Member for ImageCopy {
    ghost means = { image_region };

    #[tactic(auto, unfolding(crate::specs::Trace::image_region))]
    fn member(alloc: Global, tokens: &mut Tokens<'_>) -> Reading<ImageCopy> {
        tokens.begin()?;
        let source_level = first::<u32>(alloc, tokens)?;
        let source_first_layer = first::<u32>(alloc, tokens)?;
        let destination_level = first::<u32>(alloc, tokens)?;
        let destination_first_layer = first::<u32>(alloc, tokens)?;
        let layers = first::<u32>(alloc, tokens)?;
        let source_x = first::<u32>(alloc, tokens)?;
        let source_y = first::<u32>(alloc, tokens)?;
        let destination_x = first::<u32>(alloc, tokens)?;
        let destination_y = first::<u32>(alloc, tokens)?;
        let width = first::<u32>(alloc, tokens)?;
        let height = first::<u32>(alloc, tokens)?;
        tokens.end()?;
        Ok(ImageCopy {
            source_level,
            source_first_layer,
            destination_level,
            destination_first_layer,
            layers,
            source_x,
            source_y,
            destination_x,
            destination_y,
            width,
            height,
        })
    }
}

/// The components of a color.
impl Member for [u32; 4] {
    ghost means = { color_value };

    #[tactic(auto, unfolding(crate::specs::Trace::color_value))]
    fn member(alloc: Global, tokens: &mut Tokens<'_>) -> Reading<[u32; 4]> {
        tokens.begin()?;
        let red = first::<u32>(alloc, tokens)?;
        let green = first::<u32>(alloc, tokens)?;
        let blue = first::<u32>(alloc, tokens)?;
        let alpha = first::<u32>(alloc, tokens)?;
        tokens.end()?;
        Ok([red, green, blue, alpha])
    }
}

/// An image and what it is made with.
#[tactic(auto, unfolding(crate::specs::Trace::entry_rows))]
pub fn image_of(alloc: Global, tokens: &mut Tokens<'_>) -> Reading<Entry>
    ensures value { Gives (λ x. x) result (after_word entry_rows (codes "image") (ahead tokens.old)) }
    ensures rest { OnOk result (whole tokens.old ≡ Some tokens.new) }
{
    let id = first::<u32>(alloc, tokens)?;
    let format = first::<Format>(alloc, tokens)?;
    let width = first::<u32>(alloc, tokens)?;
    let height = first::<u32>(alloc, tokens)?;
    let levels = first::<u32>(alloc, tokens)?;
    let layers = first::<u32>(alloc, tokens)?;
    let tiling = first::<Kind>(alloc, tokens)?;
    let usage = first::<u32>(alloc, tokens)?;
    let sharing = first::<Sharing>(alloc, tokens)?;
    let place = first::<Place>(alloc, tokens)?;
    tokens.end()?;
    let info = ImageInfo {
        format,
        width,
        height,
        levels,
        layers,
        tiling,
        usage: Usage::from_bits_retain(usage),
        sharing,
        place,
    };
    Ok(Entry::Image { id, info })
}

/// A clear of ranges of an image.
#[tactic(auto, unfolding(crate::specs::Trace::command_rows))]
pub fn clear_of(alloc: Global, tokens: &mut Tokens<'_>) -> Reading<Cmd>
    ensures value { Gives (λ x. x) result (after_word command_rows (codes "clear") (ahead tokens.old)) }
    ensures rest { OnOk result (whole tokens.old ≡ Some tokens.new) }
{
    let image = first::<u32>(alloc, tokens)?;
    let layout = first::<u32>(alloc, tokens)?;
    let color = first::<[u32; 4]>(alloc, tokens)?;
    let ranges = first(alloc, tokens)?;
    tokens.end()?;
    Ok(Cmd::Clear {
        image,
        layout: Layout::new(layout),
        color,
        ranges,
    })
}

/// A copy from a buffer to an image.
#[tactic(auto, unfolding(crate::specs::Trace::command_rows))]
pub fn copy_in_of(alloc: Global, tokens: &mut Tokens<'_>) -> Reading<Cmd>
    ensures value { Gives (λ x. x) result (after_word command_rows (codes "copy_in") (ahead tokens.old)) }
    ensures rest { OnOk result (whole tokens.old ≡ Some tokens.new) }
{
    let buffer = first::<u32>(alloc, tokens)?;
    let image = first::<u32>(alloc, tokens)?;
    let layout = first::<u32>(alloc, tokens)?;
    let regions = first(alloc, tokens)?;
    tokens.end()?;
    Ok(Cmd::CopyIn {
        buffer,
        image,
        layout: Layout::new(layout),
        regions,
    })
}

/// A copy from an image to a buffer.
#[tactic(auto, unfolding(crate::specs::Trace::command_rows))]
pub fn copy_out_of(alloc: Global, tokens: &mut Tokens<'_>) -> Reading<Cmd>
    ensures value { Gives (λ x. x) result (after_word command_rows (codes "copy_out") (ahead tokens.old)) }
    ensures rest { OnOk result (whole tokens.old ≡ Some tokens.new) }
{
    let image = first::<u32>(alloc, tokens)?;
    let layout = first::<u32>(alloc, tokens)?;
    let buffer = first::<u32>(alloc, tokens)?;
    let regions = first(alloc, tokens)?;
    tokens.end()?;
    Ok(Cmd::CopyOut {
        image,
        layout: Layout::new(layout),
        buffer,
        regions,
    })
}

/// A copy from an image to an image.
#[tactic(auto, unfolding(crate::specs::Trace::command_rows))]
pub fn copy_image_of(alloc: Global, tokens: &mut Tokens<'_>) -> Reading<Cmd>
    ensures value { Gives (λ x. x) result (after_word command_rows (codes "copy_image") (ahead tokens.old)) }
    ensures rest { OnOk result (whole tokens.old ≡ Some tokens.new) }
{
    let source = first::<u32>(alloc, tokens)?;
    let source_layout = first::<u32>(alloc, tokens)?;
    let destination = first::<u32>(alloc, tokens)?;
    let destination_layout = first::<u32>(alloc, tokens)?;
    let regions = first(alloc, tokens)?;
    tokens.end()?;
    Ok(Cmd::CopyImage {
        source,
        source_layout: Layout::new(source_layout),
        destination,
        destination_layout: Layout::new(destination_layout),
        regions,
    })
}
