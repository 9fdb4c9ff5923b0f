ghost use Rattle.std.specs.Prelude.{◌≡◌, ◌<◌, min, IfSome, is_some};
ghost use Rattle.vk_model.specs.Basics.{round_up};
ghost use Rattle.vk_model.specs.Trace.Image.{image_size};
ghost use Rattle.vk_model.specs.Trace.Objects.{Resource, of_buffer, of_image};
ghost use Rattle.vk_model.specs.Rules.Binding as binding;
ghost use Rattle.vk_model.specs.Trace.PointViews.{action_of, point_of};
ghost use Rattle.vk_history.specs.PointViews.{past};
ghost use Rattle.vk_rules.specs.Binding.{IsPastMemory, IsMisplaced};
ghost use Rattle.vk_rules.specs.Sizes.{OnHost, reported_need};
ghost use Rattle.vk_rules.specs.Inner.Binding.{IsPastObject, IsMisplacedAt};
ghost use Rattle.vk_rules.specs.Inner.RuleParts.{ends_past_object, is_misplaced_at, is_aliased_at};

use crate::needs::{buffer_need_past, image_need_past, takes_more};
use vk_history::History;
use vk_image_tiles::{asks_more, image_align};
use vk_model::{Action, BufferInfo, Entry, ImageInfo, Kind, Place, Point};

/// The greatest size that a resource may ask for in bytes.
pub const GREATEST_SIZE: u64 = 67_108_864;

/// The alignment that a buffer asks for in bytes.
const BUFFER_ALIGN: u64 = 16;

/// The bytes of an atom of memory that isn't coherent.
const ATOM: u64 = 64;

/// The memory type whose host accesses go through a cache.
const CACHED_TYPE: u32 = 2;

/// BIND_RANGE: a resource that ends past the memory object that it's bound to.
#[derive(Clone, Copy)]
pub struct PastMemory {
    /// The id of the memory object.
    pub memory: u32,
    /// Where the resource is bound, in bytes from the object's start.
    pub offset: u64,
    /// The bytes that the resource asks for; 2 to the power of 64 where it asks for more.
    pub need: u128,
    /// The bytes of the memory object.
    pub size: u64,
}

/// Why an offset must be a multiple.
#[derive(Clone, Copy)]
pub enum AlignCause {
    /// The resource asks for it.
    Resource,
    /// The memory is of type 2, where no two resources may share an atom.
    Atom,
}

/// BIND_ALIGN: an offset that isn't a multiple of what is asked for.
#[derive(Clone, Copy)]
pub struct Misplaced {
    /// The id of the memory object.
    pub memory: u32,
    /// Where the resource is bound, in bytes from the object's start.
    pub offset: u64,
    /// Why it must be a multiple.
    pub cause: AlignCause,
    /// Of how many bytes.
    pub multiple: u64,
}

/// BIND_RANGE: a resource ends past the memory object that it's bound to.
pub fn breaks_bind_range(history: &History<'_>, point: &Point<'_>) -> bool
    ensures { result ≡ binding.breaks_bind_range (past history.now) (point_of point.now) }
{
    bind_range_of(history, point).is_some()
}

/// BIND_RANGE: where a resource is bound, what it asks for, and the size of its memory object, where it
/// ends past that.
pub fn bind_range_of(history: &History<'_>, point: &Point<'_>) -> Option<PastMemory>
    ensures broken { is_some result ≡ binding.breaks_bind_range (past history.now) (point_of point.now) }
    ensures reported { IfSome result (λ m. OnHost (action_of point.now.action) (λ x. IsPastMemory (past history.now) x m)) }
{
    match point.action {
        Action::Host(Entry::Buffer { info, .. }) => buffer_past(history, info),
        Action::Host(Entry::Image { info, .. }) => image_past(history, info),
        _ => None,
    }
}

fn buffer_past(history: &History<'_>, info: &BufferInfo) -> Option<PastMemory>
    ensures broken { is_some result ≡ ends_past_object (past history.now) info.now.place (of_buffer info.now).size }
    ensures reported { IfSome result (IsPastObject (past history.now) info.now.place (reported_need (of_buffer info.now).size)) }
{
    match info.place {
        Place::Memory { memory, offset } => {
            let size = history.memory(memory)?.size;
            let need = buffer_need_past(info, offset, size)?;
            Some(PastMemory {
                memory,
                offset,
                need,
                size,
            })
        }
        _ => None,
    }
}

fn image_past(history: &History<'_>, info: &ImageInfo) -> Option<PastMemory>
    ensures broken { is_some result ≡ ends_past_object (past history.now) info.now.place (of_image info.now).size }
    ensures reported { IfSome result (IsPastObject (past history.now) info.now.place (reported_need (of_image info.now).size)) }
{
    match info.place {
        Place::Memory { memory, offset } => {
            let size = history.memory(memory)?.size;
            let need = image_need_past(info, offset, size)?;
            Some(PastMemory {
                memory,
                offset,
                need,
                size,
            })
        }
        _ => None,
    }
}

/// BIND_ALIGN: the offset in the memory object isn't a multiple of the resource's alignment, or of an
/// atom where the host's accesses are cached.
pub fn breaks_bind_align(history: &History<'_>, point: &Point<'_>) -> bool
    ensures { result ≡ binding.breaks_bind_align (past history.now) (point_of point.now) }
{
    bind_align_of(history, point).is_some()
}

/// BIND_ALIGN: where a resource is bound, and of what the offset must be a multiple and isn't.
pub fn bind_align_of(history: &History<'_>, point: &Point<'_>) -> Option<Misplaced>
    ensures broken { is_some result ≡ binding.breaks_bind_align (past history.now) (point_of point.now) }
    ensures reported { IfSome result (λ m. OnHost (action_of point.now.action) (λ x. IsMisplaced (past history.now) x m)) }
{
    match point.action {
        Action::Host(Entry::Buffer { info, .. }) => misplaced_at(history, info.place, BUFFER_ALIGN),
        Action::Host(Entry::Image { info, .. }) => {
            misplaced_at(history, info.place, image_align(info.tiling))
        }
        _ => None,
    }
}

fn misplaced_at(history: &History<'_>, place: Place, align: u64) -> Option<Misplaced>
    requires { 0 < align }
    ensures broken { is_some result ≡ is_misplaced_at (past history.now) place align }
    ensures reported { IfSome result (IsMisplacedAt (past history.now) place align) }
{
    match place {
        Place::Memory { memory, offset } => {
            if offset % align != 0 {
                Some(Misplaced {
                    memory,
                    offset,
                    cause: AlignCause::Resource,
                    multiple: align,
                })
            } else if history.type_at(place) == Some(CACHED_TYPE) && offset % ATOM != 0 {
                Some(Misplaced {
                    memory,
                    offset,
                    cause: AlignCause::Atom,
                    multiple: ATOM,
                })
            } else {
                None
            }
        }
        _ => None,
    }
}

/// ALIASED: the resource has bytes in common with a live one in its memory object, or shares a page of
/// `bufferImageGranularity` with one of the other kind.
pub fn breaks_aliased(history: &History<'_>, point: &Point<'_>) -> bool
    ensures { result ≡ binding.breaks_aliased (past history.now) (point_of point.now) }
{
    match point.action {
        Action::Host(Entry::Buffer { info, .. }) => is_buffer_aliased(history, info),
        Action::Host(Entry::Image { info, .. }) => is_image_aliased(history, info),
        _ => false,
    }
}

fn is_buffer_aliased(history: &History<'_>, info: &BufferInfo) -> bool
    ensures { result ≡ is_aliased_at (past history.now) (of_buffer info.now) }
{
    is_aliased(history, info.place, buffer_bytes(info), Kind::Linear)
}

fn is_image_aliased(history: &History<'_>, info: &ImageInfo) -> bool
    ensures { result ≡ is_aliased_at (past history.now) (of_image info.now) }
{
    is_aliased(history, info.place, image_bytes(info), info.tiling)
}

fn is_aliased(history: &History<'_>, place: Place, size: u64, kind: Kind) -> bool
    ensures { (r : Resource) → place ≡ r.place → size ≡ min r.size 67108865 → kind ≡ r.kind → result ≡ is_aliased_at (past history.now) r }
{
    match place {
        Place::Memory { memory, offset } => history.is_aliased(memory, offset, size, kind),
        _ => false,
    }
}

/// The bytes that a buffer asks for; one more than the limit, where it asks for more.
pub fn buffer_bytes(info: &BufferInfo) -> u64
    ensures { result ≡ min (round_up info.now.size 16) 67108865 }
{
    if takes_more(info, GREATEST_SIZE) {
        GREATEST_SIZE + 1
    } else {
        (info.size + 15) / 16 * 16
    }
}

/// The same of an image.
pub fn image_bytes(info: &ImageInfo) -> u64
    ensures { result ≡ min (image_size info.now info.now.tiling) 67108865 }
{
    let mut low = 0;
    let mut high = GREATEST_SIZE + 1;
    while low < high {
        let middle = low + (high - low) / 2;
        if asks_more(info, middle) {
            low = middle + 1;
        } else {
            high = middle;
        }
    }
    low
}
