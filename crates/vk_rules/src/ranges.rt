ghost use Rattle.std.specs.Prelude.{◌≡◌, ℕ, ◌||◌, ◌+◌, IfSome, is_some, nat_lt};
ghost use Rattle.std.specs.List.{list_any};
ghost use Rattle.vk_model.specs.declared.command.Cmd.TheVariants as cmd;
ghost use Rattle.vk_model.specs.Basics.{holds};
ghost use Rattle.vk_model.specs.Trace.Image.{texel};
ghost use Rattle.vk_model.specs.Trace.Objects as objects;
ghost use Rattle.vk_model.specs.Trace.Point as spec;
ghost use Rattle.vk_model.specs.World.ByteWrites.{buffer_size};
ghost use Rattle.vk_model.specs.Rules.Ranges as rules;
ghost use Rattle.vk_model.specs.Trace.PointViews.{action_of, point_of};
ghost use Rattle.vk_history.specs.PointViews.{past};
ghost use Rattle.vk_rules.specs.Ranges.{IsRange, IsPastOf, command_bytes};
ghost use Rattle.vk_rules.specs.Inner.Ranges.{IsElementPast, IsRowOf};

use crate::items::Item;
use crate::regions::{PastRows, ShortRows, past_rows, short_rows};
use vk_history::History;
use vk_model::{Action, BufferCopy, BufferImageCopy, Cmd, Element, Entry, Length, Point};

/// Bytes of a buffer that a point names, and that end past the buffer.
#[derive(Clone, Copy)]
pub struct PastBytes {
    /// Which item of the point names them.
    pub item: Item,
    /// The id of the buffer.
    pub buffer: u32,
    /// Where they begin, in bytes from the buffer's start.
    pub offset: u64,
    /// How many bytes they are.
    pub bytes: Length,
    /// The bytes of the buffer; 0 where the id is of none.
    pub size: u64,
}

/// RANGE: what is compared.
#[derive(Clone, Copy)]
pub enum RangeMeasure {
    /// Where bytes end, and the size of their buffer.
    Bytes(PastBytes),
    /// Where the last texel of a region ends, and the size of its buffer.
    Rows(PastRows),
    /// A row length and a width, or an image height and a height.
    Short(ShortRows),
}

/// RANGE: bytes outside the buffer, to the end from the end or past it, or a row length or image height
/// under the region's.
pub fn breaks_range(history: &History<'_>, point: &Point<'_>) -> bool
    ensures { result ≡ rules.breaks_range (past history.now) (point_of point.now) }
{
    range_of(history, point).is_some()
}

/// RANGE: what a point names past its buffer, or which of its rows are too short.
pub fn range_of(history: &History<'_>, point: &Point<'_>) -> Option<RangeMeasure>
    ensures broken { is_some result ≡ rules.breaks_range (past history.now) (point_of point.now) }
    ensures reported { IfSome result (IsRange (past history.now) (action_of point.now.action)) }
{
    match point.action {
        Action::Host(entry) => of_host(history, entry),
        Action::Run(command) => of_command(history, command),
        _ => None,
    }
}

fn of_host(history: &History<'_>, entry: &Entry) -> Option<RangeMeasure>
    ensures broken { is_some result ≡ rules.host_past (past history.now) entry.now }
    ensures reported { IfSome result (IsRange (past history.now) (spec.Host entry.now)) }
{
    match entry {
        Entry::Write {
            buffer,
            offset,
            bytes,
        } => of_bytes(history, *buffer, *offset, Length::Bytes(bytes.len() as u64)),
        Entry::Read {
            buffer,
            offset,
            size,
        } => of_bytes(history, *buffer, *offset, Length::Bytes(*size)),
        Entry::Flush {
            buffer,
            offset,
            size,
        } => of_bytes(history, *buffer, *offset, *size),
        Entry::Invalidate {
            buffer,
            offset,
            size,
        } => of_bytes(history, *buffer, *offset, *size),
        _ => None,
    }
}

/// What is compared where an entry or a command names one range of a buffer.
fn of_bytes(history: &History<'_>, buffer: u32, offset: u64, bytes: Length) -> Option<RangeMeasure>
    ensures broken { is_some result ≡ rules.ends_past (buffer_size (past history.now) buffer) offset bytes }
    ensures reported { IfSome result (λ m. m ≡ RangeMeasure.Bytes (record { item = Item.Only; buffer = buffer; offset = offset; bytes = bytes; size = buffer_size (past history.now) buffer })) }
{
    let past = past_bytes(history.size(buffer), Item::Only, buffer, offset, bytes)?;
    Some(RangeMeasure::Bytes(past))
}

/// Bytes of a buffer of a size, where they end past it.
fn past_bytes(size: u64, item: Item, buffer: u32, offset: u64, bytes: Length) -> Option<PastBytes>
    ensures broken { is_some result ≡ rules.ends_past size offset bytes }
    ensures reported { IfSome result (λ m. m ≡ record { item = item; buffer = buffer; offset = offset; bytes = bytes; size = size }) }
{
    if ends_past(size, offset, bytes) {
        Some(PastBytes {
            item,
            buffer,
            offset,
            bytes,
            size,
        })
    } else {
        None
    }
}

/// Whether a range of a buffer of a size ends past it; one to the end must begin before the end.
fn ends_past(size: u64, offset: u64, bytes: Length) -> bool
    ensures { result ≡ rules.ends_past size offset bytes }
{
    match bytes {
        Length::Bytes(count) => count > size || offset > size - count,
        Length::Whole => offset >= size,
    }
}

fn of_command(history: &History<'_>, command: &Cmd) -> Option<RangeMeasure>
    ensures broken { is_some result ≡ rules.command_past (past history.now) command.now }
    ensures reported { IfSome result (IsRange (past history.now) (spec.Run command.now)) }
{
    match command {
        Cmd::Fill {
            buffer,
            offset,
            size,
            ..
        } => of_bytes(history, *buffer, *offset, *size),
        Cmd::Update {
            buffer,
            offset,
            bytes,
        } => of_bytes(history, *buffer, *offset, Length::Bytes(bytes.len() as u64)),
        Cmd::Copy {
            source,
            destination,
            regions,
        } => of_copy(history, *source, *destination, regions.as_slice()),
        Cmd::CopyIn {
            buffer,
            image,
            regions,
            ..
        } => of_regions(history, *buffer, *image, regions.as_slice()),
        Cmd::CopyOut {
            image,
            buffer,
            regions,
            ..
        } => of_regions(history, *buffer, *image, regions.as_slice()),
        Cmd::Barrier { elements } => of_elements(history, elements.as_slice()),
        Cmd::Clear { .. } => None,
        Cmd::CopyImage { .. } => None,
        Cmd::Set { .. } => None,
        Cmd::Await { .. } => None,
    }
}

fn of_copy(
    history: &History<'_>,
    source: u32,
    destination: u32,
    regions: &[BufferCopy],
) -> Option<RangeMeasure>
    ensures broken { is_some result ≡ (list_any (λ g. nat_lt (buffer_size (past history.now) source) (g.source_offset + g.size)) regions.now || list_any (λ g. nat_lt (buffer_size (past history.now) destination) (g.destination_offset + g.size)) regions.now) }
    ensures reported { IfSome result (IsRange (past history.now) (spec.Run (cmd.Copy source destination regions.now))) }
{
    match source_past(history.size(source), source, regions) {
        Some(past) => Some(RangeMeasure::Bytes(past)),
        None => {
            let past = destination_past(history.size(destination), destination, regions)?;
            Some(RangeMeasure::Bytes(past))
        }
    }
}

/// The first region that reads past a buffer of a size.
fn source_past(size: u64, buffer: u32, regions: &[BufferCopy]) -> Option<PastBytes>
    ensures broken { is_some result ≡ list_any (λ g. nat_lt size (g.source_offset + g.size)) regions.now }
    ensures reported { IfSome result (λ m. (m.buffer ≡ buffer) × ((d : ℕ) → IsPastOf size (command_bytes (cmd.Copy buffer d regions.now)) m)) }
{
    for (index, region) in regions.iter().enumerate() {
        let bytes = Length::Bytes(region.size);
        let item = Item::Source(index);
        if let Some(past) = past_bytes(size, item, buffer, region.source_offset, bytes) {
            return Some(past);
        }
    }
    None
}

/// The first region that writes past a buffer of a size.
fn destination_past(size: u64, buffer: u32, regions: &[BufferCopy]) -> Option<PastBytes>
    ensures broken { is_some result ≡ list_any (λ g. nat_lt size (g.destination_offset + g.size)) regions.now }
    ensures reported { IfSome result (λ m. (m.buffer ≡ buffer) × ((s : ℕ) → IsPastOf size (command_bytes (cmd.Copy s buffer regions.now)) m)) }
{
    for (index, region) in regions.iter().enumerate() {
        let bytes = Length::Bytes(region.size);
        let item = Item::Destination(index);
        if let Some(past) = past_bytes(size, item, buffer, region.destination_offset, bytes) {
            return Some(past);
        }
    }
    None
}

/// What is compared of the regions of a copy between a buffer and an image.
fn of_regions(
    history: &History<'_>,
    buffer: u32,
    image_id: u32,
    regions: &[BufferImageCopy],
) -> Option<RangeMeasure>
    ensures broken { is_some result ≡ (holds (objects.image (past history.now) image_id) (λ m. list_any (rules.region_past (buffer_size (past history.now) buffer) (texel m.format)) regions.now) || list_any rules.is_short regions.now) }
    ensures reported { IfSome result (IsRowOf (past history.now) buffer image_id regions.now) }
{
    if let Some(info) = history.image(image_id)
        && let Some(past) = past_rows(history.size(buffer), buffer, info.format, regions)
    {
        return Some(RangeMeasure::Rows(past));
    }
    let short = short_rows(regions)?;
    Some(RangeMeasure::Short(short))
}

fn of_elements(history: &History<'_>, elements: &[Element]) -> Option<RangeMeasure>
    ensures broken { is_some result ≡ list_any (rules.element_past (past history.now)) elements.now }
    ensures reported { IfSome result (IsRange (past history.now) (spec.Run (cmd.Barrier elements.now))) }
{
    for (index, element) in elements.iter().enumerate() {
        if let Some(past) = of_element(history, index, element) {
            return Some(RangeMeasure::Bytes(past));
        }
    }
    None
}

fn of_element(history: &History<'_>, index: usize, element: &Element) -> Option<PastBytes>
    ensures broken { is_some result ≡ rules.element_past (past history.now) element.now }
    ensures reported { IfSome result (IsElementPast (past history.now) index element.now) }
{
    match element {
        Element::Buffer(on_buffer) => {
            let size = history.size(on_buffer.buffer);
            let item = Item::Element(index);
            past_bytes(
                size,
                item,
                on_buffer.buffer,
                on_buffer.offset,
                on_buffer.size,
            )
        }
        _ => None,
    }
}
