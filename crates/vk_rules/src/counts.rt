ghost use Rattle.std.specs.Prelude.{◌≡◌, ◌==◌, ◌||◌, IfSome, is_some, nat_le, count_by, true, None, Some};
ghost use Rattle.std.specs.List.{list_any};
ghost use Rattle.vk_model.specs.declared.command.Length.TheVariants as length_of;
ghost use Rattle.vk_model.specs.Trace.Image as shape;
ghost use Rattle.vk_model.specs.World.ByteWrites.{buffer_size};
ghost use Rattle.vk_model.specs.Rules.Sizes as rules;
ghost use Rattle.vk_model.specs.Trace.PointViews.{action_of, point_of};
ghost use Rattle.vk_history.specs.PointViews.{past};
ghost use Rattle.vk_rules.specs.Counts.{IsSize, IsHostSize, IsPoolSize, IsSizeOf, is_out, image_limits, fill_limits, copy_limits, elements_limits, command_limits};
ghost use Rattle.vk_rules.specs.Inner.Counts.{IsLength, IsElementSize};

use crate::items::Item;
use vk_history::History;
use vk_model::{Action, BufferCopy, Cmd, Element, Entry, ImageInfo, Kind, Length, Point, PoolInfo};

/// The greatest size of a block of a pool in bytes.
const GREATEST_BLOCK: u64 = 16_777_216;

/// What the size of a block is a multiple of, in bytes.
const BLOCK_UNIT: u64 = 1_024;

/// The most blocks of a pool.
const MOST_BLOCKS: u64 = 64;

/// The longest side of an image in texels.
const LONGEST_SIDE: u64 = 4_096;

/// The most layers of an optimal image.
const MOST_LAYERS: u64 = 256;

/// The most bytes of an update.
const MOST_UPDATED: u64 = 65_536;

/// The longest side that an image needs for each level more.
const SIDES: [u32; 13] = [1, 2, 4, 8, 16, 32, 64, 128, 256, 512, 1_024, 2_048, 4_096];

/// What is counted.
#[derive(Clone, Copy)]
pub enum Quantity {
    /// Bytes; of a fill to the end, those that are left in the buffer.
    Bytes,
    /// The bytes of a block of a pool.
    BlockBytes,
    /// The blocks of a pool.
    Blocks,
    /// The texels of a row of an image.
    Columns,
    /// The rows of an image.
    Rows,
    /// The mip levels of an image.
    Levels,
    /// The array layers of an image.
    Layers,
    /// The regions of a copy, the ranges of a clear, or the waits of the host.
    Items,
}

/// A number that is under its least value or over its greatest.
#[derive(Clone, Copy)]
pub struct Amount {
    /// Which item of the point names it.
    pub item: Item,
    /// What it counts.
    pub quantity: Quantity,
    /// The number.
    pub value: u64,
    /// Its least value.
    pub least: u64,
    /// Its greatest value, where there is one.
    pub most: Option<u64>,
}

/// SIZE: what is compared.
#[derive(Clone, Copy)]
pub enum SizeMeasure {
    /// A number with its least and its greatest value.
    Amount(Amount),
    /// The bytes of a block of a pool, which aren't a multiple of 1,024.
    Block(u64),
}

/// SIZE: a size or count that is 0 or over its limit.
pub fn breaks_size(history: &History<'_>, point: &Point<'_>) -> bool
    ensures { result ≡ rules.breaks_size (past history.now) (point_of point.now) }
{
    size_of(history, point).is_some()
}

/// SIZE: the number of a point that is 0 or over its limit.
pub fn size_of(history: &History<'_>, point: &Point<'_>) -> Option<SizeMeasure>
    ensures broken { is_some result ≡ rules.breaks_size (past history.now) (point_of point.now) }
    ensures reported { IfSome result (IsSize (past history.now) (action_of point.now.action)) }
{
    match point.action {
        Action::Host(entry) => of_host(entry),
        Action::Run(command) => of_command(history, command),
        _ => None,
    }
}

fn of_host(entry: &Entry) -> Option<SizeMeasure>
    ensures broken { is_some result ≡ rules.bad_entry_size entry.now }
    ensures reported { IfSome result (IsHostSize entry.now) }
{
    match entry {
        Entry::Pool { info, .. } => of_pool(info),
        Entry::Buffer { info, .. } => at_least_one(Item::Only, Quantity::Bytes, info.size),
        Entry::Image { info, .. } => of_image(info),
        Entry::Write { bytes, .. } => at_least_one(Item::Only, Quantity::Bytes, bytes.len() as u64),
        Entry::Read { size, .. } => at_least_one(Item::Only, Quantity::Bytes, *size),
        Entry::Flush { size, .. } => of_length(Item::Only, *size),
        Entry::Invalidate { size, .. } => of_length(Item::Only, *size),
        Entry::Wait { waits } => at_least_one(Item::Only, Quantity::Items, waits.len() as u64),
        _ => None,
    }
}

/// A number that must not be 0, where it is.
fn at_least_one(item: Item, quantity: Quantity, value: u64) -> Option<SizeMeasure>
    ensures broken { is_some result ≡ (value == 0) }
    ensures reported { IfSome result (λ m. m ≡ SizeMeasure.Amount (record { item = item; quantity = quantity; value = value; least = 1; most = None })) }
{
    if value == 0 {
        Some(SizeMeasure::Amount(Amount {
            item,
            quantity,
            value,
            least: 1,
            most: None,
        }))
    } else {
        None
    }
}

/// A number that must be from 1 to a limit, where it isn't.
fn limited(quantity: Quantity, value: u64, most: u64) -> Option<SizeMeasure>
    ensures broken { is_some result ≡ rules.is_outside most value }
    ensures reported { IfSome result (λ m. m ≡ SizeMeasure.Amount (record { item = Item.Only; quantity = quantity; value = value; least = 1; most = Some most })) }
    ensures out { IfSome result (λ m. is_out value 1 (Some most) ≡ true) }
{
    if value == 0 || value > most {
        Some(SizeMeasure::Amount(Amount {
            item: Item::Only,
            quantity,
            value,
            least: 1,
            most: Some(most),
        }))
    } else {
        None
    }
}

fn of_length(item: Item, size: Length) -> Option<SizeMeasure>
    ensures broken { is_some result ≡ rules.is_zero size }
    ensures reported { IfSome result (IsLength item size) }
{
    match size {
        Length::Bytes(bytes) => at_least_one(item, Quantity::Bytes, bytes),
        Length::Whole => None,
    }
}

fn of_pool(info: &PoolInfo) -> Option<SizeMeasure>
    ensures broken { is_some result ≡ rules.bad_pool info.now }
    ensures reported { IfSome result (IsPoolSize info.now) }
{
    if info.block_size % BLOCK_UNIT != 0 {
        return Some(SizeMeasure::Block(info.block_size));
    }
    match limited(Quantity::BlockBytes, info.block_size, GREATEST_BLOCK) {
        Some(amount) => Some(amount),
        None => limited(Quantity::Blocks, u64::from(info.block_limit), MOST_BLOCKS),
    }
}

fn of_image(info: &ImageInfo) -> Option<SizeMeasure>
    ensures broken { is_some result ≡ rules.bad_image info.now }
    ensures reported { IfSome result (IsSizeOf (image_limits info.now)) }
{
    match of_sides(info) {
        Some(amount) => Some(amount),
        None => of_levels(info),
    }
}

fn of_sides(info: &ImageInfo) -> Option<SizeMeasure>
    ensures broken { is_some result ≡ (rules.is_outside 4096 info.now.width || rules.is_outside 4096 info.now.height) }
    ensures reported { IfSome result (IsSizeOf (image_limits info.now)) }
{
    match limited(Quantity::Columns, u64::from(info.width), LONGEST_SIDE) {
        Some(amount) => Some(amount),
        None => limited(Quantity::Rows, u64::from(info.height), LONGEST_SIDE),
    }
}

fn of_levels(info: &ImageInfo) -> Option<SizeMeasure>
    ensures broken { is_some result ≡ (rules.is_outside 256 info.now.layers || rules.bad_levels info.now.tiling info.now) }
    ensures reported { IfSome result (IsSizeOf (image_limits info.now)) }
{
    let layers = u64::from(info.layers);
    let levels = u64::from(info.levels);
    match info.tiling {
        Kind::Linear => match limited(Quantity::Layers, layers, 1) {
            Some(amount) => Some(amount),
            None => limited(Quantity::Levels, levels, 1),
        },
        Kind::Optimal => match limited(Quantity::Layers, layers, MOST_LAYERS) {
            Some(amount) => Some(amount),
            None => limited(
                Quantity::Levels,
                levels,
                most_levels(info.width, info.height),
            ),
        },
    }
}

/// How many levels an image with these sides can have.
fn most_levels(width: u32, height: u32) -> u64
    ensures { result ≡ shape.most_levels width height }
{
    count_up_to(&SIDES, width.max(height)) as u64
}

fn count_up_to(sides: &[u32], most: u32) -> usize
    ensures { result ≡ count_by (λ side. nat_le side most) sides.now }
{
    sides.iter().filter(|side| **side <= most).count()
}

fn of_command(history: &History<'_>, command: &Cmd) -> Option<SizeMeasure>
    ensures broken { is_some result ≡ rules.bad_command_size (past history.now) command.now }
    ensures reported { IfSome result (IsSizeOf (command_limits (past history.now) command.now)) }
{
    match command {
        Cmd::Fill {
            buffer,
            offset,
            size,
            ..
        } => of_fill(history, *buffer, *offset, *size),
        Cmd::Update { bytes, .. } => limited(Quantity::Bytes, bytes.len() as u64, MOST_UPDATED),
        Cmd::Copy { regions, .. } => of_copy(regions.as_slice()),
        Cmd::Clear { ranges, .. } => at_least_one(Item::Only, Quantity::Items, ranges.len() as u64),
        Cmd::CopyIn { regions, .. } => at_least_one(
            Item::Only,
            Quantity::Items,
            regions.len() as u64,
        ),
        Cmd::CopyOut { regions, .. } => at_least_one(
            Item::Only,
            Quantity::Items,
            regions.len() as u64,
        ),
        Cmd::CopyImage { regions, .. } => at_least_one(
            Item::Only,
            Quantity::Items,
            regions.len() as u64,
        ),
        Cmd::Barrier { elements } => of_elements(elements.as_slice()),
        _ => None,
    }
}

/// The bytes that a fill has, where it writes no word.
fn of_fill(history: &History<'_>, buffer: u32, offset: u64, bytes: Length) -> Option<SizeMeasure>
    ensures broken { is_some result ≡ rules.fills_none (buffer_size (past history.now) buffer) offset bytes }
    ensures reported { IfSome result (IsSizeOf (fill_limits (buffer_size (past history.now) buffer) offset bytes)) }
{
    match bytes {
        Length::Bytes(bytes) => at_least_one(Item::Only, Quantity::Bytes, bytes),
        Length::Whole => of_rest(history.size(buffer), offset),
    }
}

/// The bytes that are left in a buffer of a size, where they are some and no word.
fn of_rest(size: u64, offset: u64) -> Option<SizeMeasure>
    ensures broken { is_some result ≡ rules.fills_none size offset length_of.Whole }
    ensures reported { IfSome result (IsSizeOf (fill_limits size offset length_of.Whole)) }
{
    if offset < size && size - offset < 4 {
        Some(SizeMeasure::Amount(Amount {
            item: Item::Only,
            quantity: Quantity::Bytes,
            value: size - offset,
            least: 4,
            most: None,
        }))
    } else {
        None
    }
}

fn of_copy(regions: &[BufferCopy]) -> Option<SizeMeasure>
    ensures broken { is_some result ≡ (rules.is_empty_list regions.now || list_any (λ g. g.size == 0) regions.now) }
    ensures reported { IfSome result (IsSizeOf (copy_limits regions.now)) }
{
    match at_least_one(Item::Only, Quantity::Items, regions.len() as u64) {
        Some(amount) => Some(amount),
        None => empty_region(regions),
    }
}

/// The first region of no byte.
fn empty_region(regions: &[BufferCopy]) -> Option<SizeMeasure>
    ensures broken { is_some result ≡ list_any (λ g. g.size == 0) regions.now }
    ensures reported { IfSome result (IsSizeOf (copy_limits regions.now)) }
{
    for (index, region) in regions.iter().enumerate() {
        if let Some(amount) = at_least_one(Item::Region(index), Quantity::Bytes, region.size) {
            return Some(amount);
        }
    }
    None
}

/// The first element of no byte.
fn of_elements(elements: &[Element]) -> Option<SizeMeasure>
    ensures broken { is_some result ≡ list_any rules.is_empty_element elements.now }
    ensures reported { IfSome result (IsSizeOf (elements_limits elements.now)) }
{
    for (index, element) in elements.iter().enumerate() {
        if let Some(amount) = of_element(Item::Element(index), element) {
            return Some(amount);
        }
    }
    None
}

fn of_element(item: Item, element: &Element) -> Option<SizeMeasure>
    ensures broken { is_some result ≡ rules.is_empty_element element.now }
    ensures reported { IfSome result (IsElementSize item element.now) }
{
    match element {
        Element::Buffer(on_buffer) => of_length(item, on_buffer.size),
        _ => None,
    }
}
