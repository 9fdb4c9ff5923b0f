ghost use Rattle.std.specs.Prelude.{◌≡◌, ◌&&◌, not, true, false, IfSome, is_some, None, Some, Contains};
ghost use Rattle.std.specs.List.{list_any};
ghost use Rattle.vk_model.specs.Trace.Objects.{is_of_type, memory_of, type_of};
ghost use Rattle.vk_model.specs.Rules.Mapping as mapping;
ghost use Rattle.vk_model.specs.Rules.Mapping.{is_mapped};
ghost use Rattle.vk_model.specs.Trace.PointViews.{action_of, point_of};
ghost use Rattle.vk_history.specs.PointViews.{past};
ghost use Rattle.vk_rules.specs.Mapping.{IsBadMapping, IsHidden, IsMappedSo};
ghost use Rattle.vk_rules.specs.Sizes.{OnHost};

use vk_history::History;
use vk_model::{Action, Entry, Point};

/// HOST_VISIBLE: a buffer that is mapped, in memory that the host can't see.
#[derive(Clone, Copy)]
pub struct Hidden {
    /// The id of the buffer.
    pub buffer: u32,
    /// Its memory type, which is 0.
    pub memory_type: u32,
}

/// MAP_STATE: a resource, and whether what is mapped with it is mapped, where that doesn't fit.
#[derive(Clone, Copy)]
pub struct BadMapping {
    /// The id of the resource that is mapped, unmapped, accessed or destroyed.
    pub resource: u32,
    /// The memory object that it is bound to; none where it has an allocation of its own.
    pub memory: Option<u32>,
    /// Whether that is mapped.
    pub is_mapped: bool,
}

/// MAP_STATE: a memory object mapped twice, an access or an unmap of what isn't mapped, or the end of a
/// mapped allocation of the resource's own.
pub fn breaks_map_state(history: &History<'_>, point: &Point<'_>) -> bool
    ensures { result ≡ mapping.breaks_map_state (past history.now) (point_of point.now) }
{
    map_state_of(history, point).is_some()
}

/// MAP_STATE: the first resource of a point whose mapping doesn't fit.
pub fn map_state_of(history: &History<'_>, point: &Point<'_>) -> Option<BadMapping>
    ensures broken { is_some result ≡ mapping.breaks_map_state (past history.now) (point_of point.now) }
    ensures reported { IfSome result (λ m. OnHost (action_of point.now.action) (λ x. IsBadMapping (past history.now) x m)) }
{
    match point.action {
        Action::Host(entry) => of_entry(history, entry),
        _ => None,
    }
}

fn of_entry(history: &History<'_>, entry: &Entry) -> Option<BadMapping>
    ensures broken { is_some result ≡ mapping.bad_mapping (past history.now) entry.now }
    ensures reported { IfSome result (IsBadMapping (past history.now) entry.now) }
{
    match entry {
        Entry::Map { buffer } => mapped_object(history, *buffer),
        Entry::Unmap { buffer } => unmapped(history, *buffer),
        Entry::Write { buffer, .. } => unmapped(history, *buffer),
        Entry::Read { buffer, .. } => unmapped(history, *buffer),
        Entry::Flush { buffer, .. } => unmapped(history, *buffer),
        Entry::Invalidate { buffer, .. } => unmapped(history, *buffer),
        Entry::Destroy { resource } => mapped_alone(history, *resource),
        Entry::EndPass { destroyed, .. } => first_mapped_alone(history, destroyed.as_slice()),
        _ => None,
    }
}

/// A buffer that isn't mapped.
fn unmapped(history: &History<'_>, buffer: u32) -> Option<BadMapping>
    ensures broken { is_some result ≡ not (is_mapped (past history.now) buffer) }
    ensures reported { IfSome result (λ m. (m.resource ≡ buffer) × (m.is_mapped ≡ false) × IsMappedSo (past history.now) m) }
{
    if history.is_mapped(buffer) {
        return None;
    }
    Some(BadMapping {
        resource: buffer,
        memory: history.memory_of(buffer),
        is_mapped: false,
    })
}

/// A buffer that the trace bound to a memory object which is mapped. A buffer's own allocation may be
/// mapped again.
fn mapped_object(history: &History<'_>, buffer: u32) -> Option<BadMapping>
    ensures broken { is_some result ≡ (is_some (memory_of (past history.now) buffer) && is_mapped (past history.now) buffer) }
    ensures reported { IfSome result (λ m. (m.resource ≡ buffer) × (is_some m.memory ≡ true) × (m.is_mapped ≡ true) × IsMappedSo (past history.now) m) }
{
    let memory = history.memory_of(buffer);
    if memory.is_some() && history.is_mapped(buffer) {
        Some(BadMapping {
            resource: buffer,
            memory,
            is_mapped: true,
        })
    } else {
        None
    }
}

/// A resource whose own allocation is mapped.
fn mapped_alone(history: &History<'_>, resource: u32) -> Option<BadMapping>
    ensures broken { is_some result ≡ mapping.is_mapped_alone (past history.now) resource }
    ensures reported { IfSome result (λ m. (m.resource ≡ resource) × (m.memory ≡ None) × (m.is_mapped ≡ true) × IsMappedSo (past history.now) m) }
{
    let memory = history.memory_of(resource);
    if memory.is_none() && history.is_mapped(resource) {
        Some(BadMapping {
            resource,
            memory,
            is_mapped: true,
        })
    } else {
        None
    }
}

/// The first of some resources whose own allocation is mapped.
fn first_mapped_alone(history: &History<'_>, resources: &[u32]) -> Option<BadMapping>
    ensures broken { is_some result ≡ list_any (mapping.is_mapped_alone (past history.now)) resources.now }
    ensures reported { IfSome result (λ m. Contains resources.now m.resource × (m.memory ≡ None) × (m.is_mapped ≡ true) × IsMappedSo (past history.now) m) }
{
    for resource in resources {
        if let Some(found) = mapped_alone(history, *resource) {
            return Some(found);
        }
    }
    None
}

/// HOST_VISIBLE: a map of a buffer on type 0, which is local to the device.
pub fn breaks_host_visible(history: &History<'_>, point: &Point<'_>) -> bool
    ensures { result ≡ mapping.breaks_host_visible (past history.now) (point_of point.now) }
{
    host_visible_of(history, point).is_some()
}

/// HOST_VISIBLE: the buffer that a point maps, and its memory type, where the host can't see it.
pub fn host_visible_of(history: &History<'_>, point: &Point<'_>) -> Option<Hidden>
    ensures broken { is_some result ≡ mapping.breaks_host_visible (past history.now) (point_of point.now) }
    ensures reported { IfSome result (λ m. OnHost (action_of point.now.action) (λ x. IsHidden (past history.now) x m)) }
{
    match point.action {
        Action::Host(Entry::Map { buffer }) => of_map(history, *buffer),
        _ => None,
    }
}

fn of_map(history: &History<'_>, buffer: u32) -> Option<Hidden>
    ensures broken { is_some result ≡ is_of_type (past history.now) 0 buffer }
    ensures reported { IfSome result (λ m. (m.buffer ≡ buffer) × (type_of (past history.now) buffer ≡ Some m.memory_type) × (m.memory_type ≡ 0)) }
{
    let memory_type = history.type_of(buffer)?;
    if memory_type == 0 {
        Some(Hidden {
            buffer,
            memory_type,
        })
    } else {
        None
    }
}
