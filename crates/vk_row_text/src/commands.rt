ghost use Rattle.std.specs.Prelude.{◌≡◌, ◌++◌, [], ◌∷◌, IfOk, true, count_by, length, map};
ghost use Rattle.vk_row_text.specs.Regions.{buffer_image_item, dependency_item, image_item};
ghost use Rattle.vk_row_text.specs.Rows as spec;
ghost use Rattle.vk_row_text.specs.Words.{call_words, row_words};

use crate::items::items_of;
use crate::names::{BatchName, RowName};
use crate::words::{Call, Row, Word, row_of};
use std::alloc::{AllocError, Global};
use vk_model::{
    BufferCopy, BufferImageCopy, Cmd, Dependency, Element, ImageCopy, Layout, Sequence,
    SubresourceRange,
};

/// The row of a command.
pub fn command_row(alloc: Global, command: &Cmd) -> Result<Row, AllocError>
    ensures { IfOk result (λ row. row_words row ≡ spec.command_row command.now) }
{
    match command {
        Cmd::Fill {
            buffer,
            offset,
            size,
            word,
        } => {
            let buffer = Word::Number(*buffer as u64);
            let offset = Word::Number(*offset);
            let words = [buffer, offset, Word::Bytes(*size), Word::Hex(*word)];
            let words = Vec::from_array(alloc, words)?;
            Ok(batch_row(BatchName::FillBuffer, words, Vec::new(alloc)))
        }
        Cmd::Update {
            buffer,
            offset,
            bytes,
        } => {
            let buffer = Word::Number(*buffer as u64);
            let offset = Word::Number(*offset);
            let words = [buffer, offset, Word::Number(bytes.len() as u64)];
            let words = Vec::from_array(alloc, words)?;
            Ok(batch_row(BatchName::UpdateBuffer, words, Vec::new(alloc)))
        }
        Cmd::Copy {
            source,
            destination,
            regions,
        } => copy_row(alloc, *source, *destination, regions),
        Cmd::Clear { .. } | Cmd::CopyIn { .. } | Cmd::CopyOut { .. } | Cmd::CopyImage { .. } => {
            image_row(alloc, command)
        }
        Cmd::Barrier { elements } => barrier_row(alloc, elements),
        Cmd::Set { event, elements } => event_row(alloc, BatchName::SetEvent, *event, elements),
        Cmd::Await { event, elements } => event_row(alloc, BatchName::WaitEvent, *event, elements),
    }
}

/// A row of a batch.
fn batch_row(name: BatchName, words: Vec<Word>, items: Vec<Call>) -> Row
    ensures { row_words result ≡ spec.in_batch name words.items (map call_words items.items) }
{
    row_of(RowName::InBatch(name), words, items)
}

/// The row of a copy between buffers.
fn copy_row(
    alloc: Global,
    source: u32,
    destination: u32,
    regions: &Sequence<BufferCopy>,
) -> Result<Row, AllocError>
    ensures { IfOk result (λ row. row_words row ≡ spec.command_row (Cmd.Copy source destination regions.now)) }
{
    let words = [
        Word::Number(source as u64),
        Word::Number(destination as u64),
        Word::Number(regions.len() as u64),
    ];
    let words = Vec::from_array(alloc, words)?;
    let items = items_of(alloc, regions.as_slice())?;
    Ok(batch_row(BatchName::CopyBuffer, words, items))
}

/// The row of a command that names an image.
fn image_row(alloc: Global, command: &Cmd) -> Result<Row, AllocError>
    requires { spec.is_of_image command.now ≡ true }
    ensures { IfOk result (λ row. row_words row ≡ spec.command_row command.now) }
{
    match command {
        Cmd::Clear {
            image,
            layout,
            color,
            ranges,
        } => clear_row(alloc, *image, *layout, *color, ranges),
        Cmd::CopyIn {
            buffer,
            image,
            layout,
            regions,
        } => {
            let buffer = Word::Number(*buffer as u64);
            let image = Word::Number(*image as u64);
            let words = [buffer, image, Word::Layout(*layout)];
            region_row(alloc, BatchName::CopyBufferToImage, words, regions)
        }
        Cmd::CopyOut {
            image,
            layout,
            buffer,
            regions,
        } => {
            let image = Word::Number(*image as u64);
            let buffer = Word::Number(*buffer as u64);
            let words = [image, Word::Layout(*layout), buffer];
            region_row(alloc, BatchName::CopyImageToBuffer, words, regions)
        }
        Cmd::CopyImage {
            source,
            source_layout,
            destination,
            destination_layout,
            regions,
        } => {
            let from = (Word::Number(*source as u64), Word::Layout(*source_layout));
            let to = (
                Word::Number(*destination as u64),
                Word::Layout(*destination_layout),
            );
            image_copy_row(alloc, from, to, regions)
        }
        _ => unreachable!(),
    }
}

/// The row of a clear.
fn clear_row(
    alloc: Global,
    image: u32,
    layout: Layout,
    color: [u32; 4],
    ranges: &Sequence<SubresourceRange>,
) -> Result<Row, AllocError>
    ensures { IfOk result (λ row. row_words row ≡ spec.command_row (Cmd.Clear image layout color ranges.now)) }
{
    let [red, green, blue, alpha] = color;
    let words = [
        Word::Number(image as u64),
        Word::Layout(layout),
        Word::Number(red as u64),
        Word::Number(green as u64),
        Word::Number(blue as u64),
        Word::Number(alpha as u64),
        Word::Number(ranges.len() as u64),
    ];
    let words = Vec::from_array(alloc, words)?;
    let items = items_of(alloc, ranges.as_slice())?;
    Ok(batch_row(BatchName::ClearColorImage, words, items))
}

/// The row of a copy between a buffer and an image, whose words these are up to the number of regions.
fn region_row(
    alloc: Global,
    name: BatchName,
    words: [Word; 3],
    regions: &Sequence<BufferImageCopy>,
) -> Result<Row, AllocError>
    ensures { IfOk result (λ row. row_words row
        ≡ spec.in_batch name (words ++ (Word.Number (length regions.now) ∷ [])) (map buffer_image_item regions.now)) }
{
    let [first, second, third] = words;
    let words = [first, second, third, Word::Number(regions.len() as u64)];
    let words = Vec::from_array(alloc, words)?;
    let items = items_of(alloc, regions.as_slice())?;
    Ok(batch_row(name, words, items))
}

/// The row of a copy between images, of which each has two words.
fn image_copy_row(
    alloc: Global,
    from: (Word, Word),
    to: (Word, Word),
    regions: &Sequence<ImageCopy>,
) -> Result<Row, AllocError>
    ensures { IfOk result (λ row. row_words row ≡ spec.in_batch BatchName.CopyImage
        (from.0 ∷ from.1 ∷ to.0 ∷ to.1 ∷ Word.Number (length regions.now) ∷ []) (map image_item regions.now)) }
{
    let words = [
        from.0,
        from.1,
        to.0,
        to.1,
        Word::Number(regions.len() as u64),
    ];
    let words = Vec::from_array(alloc, words)?;
    let items = items_of(alloc, regions.as_slice())?;
    Ok(batch_row(BatchName::CopyImage, words, items))
}

/// The row of a barrier.
fn barrier_row(alloc: Global, elements: &Sequence<Element>) -> Result<Row, AllocError>
    ensures { IfOk result (λ row. row_words row ≡ spec.command_row (Cmd.Barrier elements.now)) }
{
    let all = elements.as_slice();
    let words = [
        Word::Number(count_on_memory(all) as u64),
        Word::Number(count_on_buffers(all) as u64),
        Word::Number(count_on_images(all) as u64),
    ];
    let words = Vec::from_array(alloc, words)?;
    let items = items_of(alloc, all)?;
    Ok(batch_row(BatchName::PipelineBarrier, words, items))
}

/// How many elements are on all memory.
fn count_on_memory(elements: &[Element]) -> usize
    ensures { result ≡ count_by spec.on_memory elements.now }
{
    elements
        .iter()
        .filter(|element| matches!(element, Element::Memory(_)))
        .count()
}

/// How many elements are on ranges of buffers.
fn count_on_buffers(elements: &[Element]) -> usize
    ensures { result ≡ count_by spec.on_buffer elements.now }
{
    elements
        .iter()
        .filter(|element| matches!(element, Element::Buffer(_)))
        .count()
}

/// How many elements are on levels and layers of images.
fn count_on_images(elements: &[Element]) -> usize
    ensures { result ≡ count_by spec.on_image elements.now }
{
    elements
        .iter()
        .filter(|element| matches!(element, Element::Image(_)))
        .count()
}

/// The row of a set or of an await.
fn event_row(
    alloc: Global,
    name: BatchName,
    event: u32,
    elements: &Sequence<Dependency>,
) -> Result<Row, AllocError>
    ensures { IfOk result (λ row. row_words row ≡ spec.in_batch name
        (Word.Number event ∷ Word.Number (length elements.now) ∷ []) (map dependency_item elements.now)) }
{
    let words = [
        Word::Number(event as u64),
        Word::Number(elements.len() as u64),
    ];
    let words = Vec::from_array(alloc, words)?;
    let items = items_of(alloc, elements.as_slice())?;
    Ok(batch_row(name, words, items))
}
