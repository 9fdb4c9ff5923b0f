ghost use Rattle.std.specs.Prelude.{◌≡◌, ℕ, min, true, IfOk, IfSome, Some};
ghost use Rattle.vk_model.specs.declared.entry.Entry.{Entry as AnyEntry};
ghost use Rattle.vk_model.specs.Memory.Suballocation.{conflict, ranges_meet};
ghost use Rattle.vk_model.specs.Rules.Binding.{breaks_aliased};
ghost use Rattle.vk_model.specs.Trace.Objects as objects;
ghost use Rattle.vk_model.specs.Trace.PointViews.{action_of, point_of};
ghost use Rattle.vk_history.specs.PointViews.{past};
ghost use Rattle.vk_rules.specs.Binding.{IsAliased};
ghost use Rattle.vk_rules.specs.Sizes.{OnHost};
ghost use Rattle.vk_rules.specs.Inner.Binding.{IsBound};

use crate::binding::{GREATEST_SIZE, breaks_aliased, buffer_bytes, image_bytes};
use std::alloc::{AllocError, Global};
use vk_buffer::Bindings;
use vk_history::History;
use vk_model::{Action, Entry, Kind, Need, Place, Point};

/// ALIASED: where a new resource would lie, and another one with which it is in conflict there.
#[derive(Clone, Copy)]
pub struct Aliased {
    /// The id of the memory object.
    pub memory: u32,
    /// The first byte of the new resource there.
    pub offset: u64,
    /// How many bytes it asks for.
    pub size: u64,
    /// The id of the other resource.
    pub other: u32,
    /// Its first byte.
    pub other_offset: u64,
    /// How many bytes it asked for.
    pub other_size: u64,
    /// Whether the two have bytes in common; else one is linear, the other is optimal, and they share
    /// a page of 1,024 bytes.
    pub by_bytes: bool,
}

/// Where a resource lies or would lie.
#[derive(Clone, Copy)]
struct Bound {
    /// The id of the memory object.
    memory: u32,
    /// The first byte there.
    offset: u64,
    /// How many bytes it asks for.
    size: u64,
    /// How they lie.
    kind: Kind,
}

/// ALIASED: a live resource with which the one that a point makes is in conflict, where that breaks the
/// rule; the one that was made first. None is reported of a new one that asks for more bytes than any
/// resource may. It walks over the points that have happened. The only error is want of memory.
pub fn aliased_of(history: &History<'_>, point: &Point<'_>) -> Result<Option<Aliased>, AllocError>
    ensures broken { IfOk result (λ found. IfSome found (λ m. breaks_aliased (past history.now) (point_of point.now) ≡ true)) }
    ensures reported { IfOk result (λ found. IfSome found (λ m. OnHost (action_of point.now.action) (λ x. IsAliased (past history.now) x m))) }
{
    if !breaks_aliased(history, point) {
        return Ok(None);
    }
    match point.action {
        Action::Host(entry) => aliased_by(history, entry),
        _ => Ok(None),
    }
}

fn aliased_by(history: &History<'_>, entry: &Entry) -> Result<Option<Aliased>, AllocError>
    ensures { IfOk result (λ found. IfSome found (IsAliased (past history.now) entry.now)) }
{
    let Some(own) = bound_by(entry) else {
        return Ok(None);
    };
    for point in history.happened() {
        let Some(other) = made_by(point) else {
            continue;
        };
        if let Some(found) = aliased_with(history, own, other)? {
            return Ok(Some(found));
        }
    }
    Ok(None)
}

/// The id that a point makes.
fn made_by(point: &Point<'_>) -> Option<u32> {
    match point.action {
        Action::Host(entry) => entry.made_id(),
        _ => None,
    }
}

/// What is reported of a live resource, where it is in conflict with a new one.
fn aliased_with(
    history: &History<'_>,
    own: Bound,
    other: u32,
) -> Result<Option<Aliased>, AllocError>
    ensures { (x : AnyEntry) → IsBound x own → IfOk result (λ found. IfSome found (IsAliased (past history.now) x)) }
{
    let Some(there) = live_bound(history, other) else {
        return Ok(None);
    };
    if there.memory != own.memory || !do_conflict(history.alloc(), own, there)? {
        return Ok(None);
    }
    let by_bytes = do_meet(history.alloc(), own, there)?;
    Ok(Some(Aliased {
        memory: own.memory,
        offset: own.offset,
        size: own.size,
        other,
        other_offset: there.offset,
        other_size: there.size,
        by_bytes,
    }))
}

/// Whether two resources of one memory object can't lie so together.
fn do_conflict(alloc: Global, own: Bound, there: Bound) -> Result<bool, AllocError>
    ensures { IfOk result (λ conflicts. conflicts ≡ conflict own.kind own.offset own.size there.kind there.offset there.size) }
{
    if there.size == 0 {
        return Ok(false);
    }
    let need = Need {
        size: there.size,
        align: 1,
        types: 1,
    };
    // A memory object with one of the two alone, as `History` has one with all that are live.
    let mut alone = Bindings::new(alloc, u64::MAX, 0);
    match alone.bind(there.offset, need, there.kind) {
        Ok(()) => Ok(alone.is_aliased(own.offset, own.size, own.kind)),
        Err(_) => Err(AllocError),
    }
}

/// Whether they have a byte in common: whether they couldn't lie so if both were of one kind.
fn do_meet(alloc: Global, own: Bound, there: Bound) -> Result<bool, AllocError>
    ensures { IfOk result (λ meet. meet ≡ ranges_meet own.offset own.size there.offset there.size) }
{
    do_conflict(
        alloc,
        own,
        Bound {
            kind: own.kind,
            ..there
        },
    )
}

/// Where a live resource lies, if the trace bound it.
fn live_bound(history: &History<'_>, id: u32) -> Option<Bound>
    ensures { IfSome result (λ b. (x : AnyEntry) × (objects.live (past history.now) id ≡ Some x) × IsBound x b) }
{
    let entry = history.live(id)?;
    bound_by(entry)
}

/// Where the resource that an entry makes lies, if the entry binds it and it asks for no more than any
/// resource may.
fn bound_by(entry: &Entry) -> Option<Bound>
    ensures { IfSome result (IsBound entry.now) }
{
    match entry {
        Entry::Buffer { info, .. } => bound_at(info.place, buffer_bytes(info), Kind::Linear),
        Entry::Image { info, .. } => bound_at(info.place, image_bytes(info), info.tiling),
        _ => None,
    }
}

fn bound_at(place: Place, size: u64, kind: Kind) -> Option<Bound>
    ensures { (n : ℕ) → size ≡ min n 67108865 → IfSome result (λ b. (objects.bound_at place ≡ Some (b.memory, b.offset)) × (b.size ≡ n) × (b.kind ≡ kind)) }
{
    match place {
        Place::Memory { memory, offset } if size <= GREATEST_SIZE => Some(Bound {
            memory,
            offset,
            size,
            kind,
        }),
        _ => None,
    }
}
