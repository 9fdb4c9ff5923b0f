ghost use Rattle.std.specs.Prelude.{◌≡◌, ◌&&◌, ◌==◌, IfSome, is_some};
ghost use Rattle.std.specs.List.{list_any};
ghost use Rattle.vk_model.specs.declared.command.Element.TheVariants as element_of;
ghost use Rattle.vk_model.specs.Rules.Owners as rules;
ghost use Rattle.vk_model.specs.Trace.PointViews.{action_of, point_of};
ghost use Rattle.vk_history.specs.PointViews.{past};
ghost use Rattle.vk_rules.specs.Owners.{IsOwnerWhole, IsPartOf, is_whole};
ghost use Rattle.vk_rules.specs.Inner.Transfers.{IsPartAt};

use vk_history::History;
use vk_model::{
    Action, BufferElement, Cmd, Element, Families, ImageElement, Length, Point, SubresourceRange,
};

/// Bytes of a buffer that are transferred, and aren't all.
#[derive(Clone, Copy)]
pub struct PartBytes {
    /// The index of the dependency element.
    pub element: usize,
    /// The id of the buffer.
    pub buffer: u32,
    /// Where they begin, in bytes from the buffer's start.
    pub offset: u64,
    /// How many bytes they are.
    pub bytes: Length,
    /// The bytes of the buffer; 0 where the id is of none.
    pub size: u64,
}

/// Subresources of an image that are transferred, and aren't all.
#[derive(Clone, Copy)]
pub struct PartSubresources {
    /// The index of the dependency element.
    pub element: usize,
    /// The id of the image.
    pub image: u32,
    /// The levels and layers.
    pub range: SubresourceRange,
    /// How many levels the image has.
    pub levels: u32,
    /// How many layers the image has.
    pub layers: u32,
}

/// OWNER_WHOLE: what is transferred, which isn't the whole resource.
#[derive(Clone, Copy)]
pub enum PartTransfer {
    /// Bytes of a buffer.
    Bytes(PartBytes),
    /// Subresources of an image.
    Subresources(PartSubresources),
}

/// OWNER_WHOLE: an ownership transfer of less than a whole resource.
pub fn breaks_owner_whole(history: &History<'_>, point: &Point<'_>) -> bool
    ensures { result ≡ rules.breaks_owner_whole (past history.now) (point_of point.now) }
{
    owner_whole_of(history, point).is_some()
}

/// OWNER_WHOLE: what a point transfers, where it isn't a whole resource.
pub fn owner_whole_of(history: &History<'_>, point: &Point<'_>) -> Option<PartTransfer>
    ensures broken { is_some result ≡ rules.breaks_owner_whole (past history.now) (point_of point.now) }
    ensures reported { IfSome result (IsOwnerWhole (past history.now) (action_of point.now.action)) }
{
    match point.action {
        Action::Run(Cmd::Barrier { elements }) => of_elements(history, elements.as_slice()),
        _ => None,
    }
}

fn of_elements(history: &History<'_>, elements: &[Element]) -> Option<PartTransfer>
    ensures broken { is_some result ≡ list_any (rules.is_partial_transfer (past history.now)) elements.now }
    ensures reported { IfSome result (IsPartOf (past history.now) elements.now) }
{
    for (index, element) in elements.iter().enumerate() {
        if let Some(part) = of_element(history, index, element) {
            return Some(part);
        }
    }
    None
}

fn of_element(history: &History<'_>, index: usize, element: &Element) -> Option<PartTransfer>
    ensures broken { is_some result ≡ rules.is_partial_transfer (past history.now) element.now }
    ensures reported { IfSome result (IsPartAt (past history.now) index element.now) }
{
    match element {
        Element::Memory(_) => None,
        Element::Buffer(on_buffer) => of_buffer(history, index, on_buffer),
        Element::Image(on_image) => of_image(history, index, on_image),
    }
}

fn of_buffer(history: &History<'_>, index: usize, on_buffer: &BufferElement) -> Option<PartTransfer>
    ensures broken { is_some result ≡ rules.is_partial_transfer (past history.now) (element_of.Buffer on_buffer.now) }
    ensures reported { IfSome result (IsPartAt (past history.now) index (element_of.Buffer on_buffer.now)) }
{
    if !differ(on_buffer.families) {
        return None;
    }
    let size = history.size(on_buffer.buffer);
    if is_all(size, on_buffer.offset, on_buffer.size) {
        None
    } else {
        Some(PartTransfer::Bytes(PartBytes {
            element: index,
            buffer: on_buffer.buffer,
            offset: on_buffer.offset,
            bytes: on_buffer.size,
            size,
        }))
    }
}

fn of_image(history: &History<'_>, index: usize, on_image: &ImageElement) -> Option<PartTransfer>
    ensures broken { is_some result ≡ rules.is_partial_transfer (past history.now) (element_of.Image on_image.now) }
    ensures reported { IfSome result (IsPartAt (past history.now) index (element_of.Image on_image.now)) }
{
    if !differ(on_image.families) {
        return None;
    }
    let info = history.image(on_image.image)?;
    if is_all_of(info.levels, info.layers, &on_image.range) {
        None
    } else {
        Some(PartTransfer::Subresources(PartSubresources {
            element: index,
            image: on_image.image,
            range: on_image.range,
            levels: info.levels,
            layers: info.layers,
        }))
    }
}

/// Whether two queue families differ: then it's an ownership transfer.
fn differ(families: Families) -> bool
    ensures { result ≡ rules.families_differ families }
{
    families.source != families.destination
}

/// Whether bytes are all of a buffer of a size.
fn is_all(size: u64, offset: u64, bytes: Length) -> bool
    ensures { result ≡ (offset == 0 && rules.is_all size bytes) }
{
    offset == 0
        && match bytes {
            Length::Bytes(count) => count == size,
            Length::Whole => true,
        }
}

/// Whether a range is all of an image with so many levels and layers.
fn is_all_of(levels: u32, layers: u32, range: &SubresourceRange) -> bool
    ensures { result ≡ is_whole levels layers range.now }
{
    range.first_level == 0
        && range.first_layer == 0
        && range.levels == levels
        && range.layers == layers
}
