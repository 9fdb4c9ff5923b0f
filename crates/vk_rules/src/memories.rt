ghost use Rattle.std.specs.Prelude.{◌≡◌, ◌<◌, not, nat_lt, false, IfSome, is_some, Some};
ghost use Rattle.vk_model.specs.Basics.{holds};
ghost use Rattle.vk_model.specs.Trace.Objects as objects;
ghost use Rattle.vk_model.specs.Trace.Objects.{of_buffer, of_image};
ghost use Rattle.vk_model.specs.Trace.Point.{Past, on_host};
ghost use Rattle.vk_model.specs.Rules.Sizes as rules;
ghost use Rattle.vk_model.specs.Trace.PointViews.{action_of, point_of};
ghost use Rattle.vk_history.specs.PointViews.{past};
ghost use Rattle.vk_rules.specs.Inner.RuleParts.{is_over_half};
ghost use Rattle.vk_rules.specs.Inner.Sizes.{IsOverHalfOf};
ghost use Rattle.vk_rules.specs.Sizes.{OnHost, IsBadType, IsBadSize, IsOverHalf, is_type_allowed, reported_need};

use crate::needs::{buffer_need_past, image_need_past};
use vk_history::History;
use vk_model::{Action, BufferInfo, Entry, ImageInfo, Kind, Place, Point};

/// The greatest memory type.
const GREATEST_TYPE: u32 = 2;

/// The greatest size of a memory object in bytes.
const GREATEST_MEMORY: u64 = 67_108_864;

/// MEMORY_TYPE: a memory type that there isn't, or that isn't allowed for a resource.
#[derive(Clone, Copy)]
pub struct BadType {
    /// The memory type.
    pub memory_type: u32,
    /// How the bytes of the resource lie; none where a pool or a memory object is made. A linear
    /// resource may be in memory of types 0 to 2, an optimal one of type 0.
    pub kind: Option<Kind>,
}

/// MEMORY_SIZE: the bytes that are asked for, which are none or more than 67,108,864.
#[derive(Clone, Copy)]
pub struct BadSize {
    /// The bytes of a memory object, or those that a resource asks for; 2 to the power of 64 where it
    /// asks for more.
    pub need: u128,
}

/// POOL_SIZE: a resource that asks for more than half a block of its pool.
#[derive(Clone, Copy)]
pub struct OverHalf {
    /// The id of the pool.
    pub pool: u32,
    /// The bytes that the resource asks for; 2 to the power of 64 where it asks for more.
    pub need: u128,
    /// The bytes of a block.
    pub block_size: u64,
}

/// MEMORY_TYPE: a memory type that there isn't, or one that isn't allowed for the resource.
pub fn breaks_memory_type(history: &History<'_>, point: &Point<'_>) -> bool
    ensures { result ≡ rules.breaks_memory_type (past history.now) (point_of point.now) }
{
    memory_type_of(history, point).is_some()
}

/// MEMORY_TYPE: the memory type that a point names, and for what, where it isn't allowed.
pub fn memory_type_of(history: &History<'_>, point: &Point<'_>) -> Option<BadType>
    ensures broken { is_some result ≡ rules.breaks_memory_type (past history.now) (point_of point.now) }
    ensures reported { IfSome result (λ m. OnHost (action_of point.now.action) (λ x. IsBadType (past history.now) x m)) }
{
    match point.action {
        Action::Host(Entry::Pool { info, .. }) => bad_type(info.memory_type, None),
        Action::Host(Entry::Memory { info, .. }) => bad_type(info.memory_type, None),
        Action::Host(Entry::Buffer { info, .. }) => type_for(history, info.place, Kind::Linear),
        Action::Host(Entry::Image { info, .. }) => type_for(history, info.place, info.tiling),
        _ => None,
    }
}

fn type_for(history: &History<'_>, place: Place, kind: Kind) -> Option<BadType>
    ensures broken { is_some result ≡ holds (objects.type_at (past history.now) place) (λ t. not (rules.allows kind t)) }
    ensures reported { IfSome result (λ m. (objects.type_at (past history.now) place ≡ Some m.memory_type) × (m.kind ≡ Some kind) × (is_type_allowed m.kind m.memory_type ≡ false)) }
{
    let memory_type = history.type_at(place)?;
    bad_type(memory_type, Some(kind))
}

fn bad_type(memory_type: u32, kind: Option<Kind>) -> Option<BadType>
    ensures broken { is_some result ≡ not (is_type_allowed kind memory_type) }
    ensures reported { IfSome result (λ m. m ≡ record { memory_type = memory_type; kind = kind }) }
{
    if is_allowed(kind, memory_type) {
        None
    } else {
        Some(BadType { memory_type, kind })
    }
}

fn is_allowed(kind: Option<Kind>, memory_type: u32) -> bool
    ensures { result ≡ is_type_allowed kind memory_type }
{
    match kind {
        Some(Kind::Optimal) => memory_type == 0,
        _ => memory_type <= GREATEST_TYPE,
    }
}

/// MEMORY_SIZE: a memory object of no bytes, or it or a resource that asks for more than a memory
/// object can have.
pub fn breaks_memory_size(point: &Point<'_>) -> bool
    ensures { (past : Past) → result ≡ rules.breaks_memory_size past (point_of point.now) }
{
    memory_size_of(point).is_some()
}

/// MEMORY_SIZE: the bytes that a point asks for, where no memory object can have them.
pub fn memory_size_of(point: &Point<'_>) -> Option<BadSize>
    ensures broken { is_some result ≡ on_host rules.bad_memory_size (point_of point.now) }
    ensures reported { IfSome result (λ m. OnHost (action_of point.now.action) (λ x. IsBadSize x m)) }
{
    match point.action {
        Action::Host(Entry::Memory { info, .. }) => bad_size(info.size),
        Action::Host(Entry::Buffer { info, .. }) => large_buffer(info),
        Action::Host(Entry::Image { info, .. }) => large_image(info),
        _ => None,
    }
}

fn bad_size(bytes: u64) -> Option<BadSize>
    ensures broken { is_some result ≡ rules.is_outside 67108864 bytes }
    ensures reported { IfSome result (λ m. m ≡ record { need = bytes }) }
{
    if bytes == 0 || bytes > GREATEST_MEMORY {
        Some(BadSize {
            need: u128::from(bytes),
        })
    } else {
        None
    }
}

fn large_buffer(info: &BufferInfo) -> Option<BadSize>
    ensures broken { is_some result ≡ nat_lt 67108864 (of_buffer info.now).size }
    ensures reported { IfSome result (λ m. (m.need ≡ reported_need (of_buffer info.now).size) × (67108864 < m.need)) }
{
    let need = buffer_need_past(info, 0, GREATEST_MEMORY)?;
    Some(BadSize { need })
}

fn large_image(info: &ImageInfo) -> Option<BadSize>
    ensures broken { is_some result ≡ nat_lt 67108864 (of_image info.now).size }
    ensures reported { IfSome result (λ m. (m.need ≡ reported_need (of_image info.now).size) × (67108864 < m.need)) }
{
    let need = image_need_past(info, 0, GREATEST_MEMORY)?;
    Some(BadSize { need })
}

/// POOL_SIZE: a resource that asks for more than half a block of its pool.
pub fn breaks_pool_size(history: &History<'_>, point: &Point<'_>) -> bool
    ensures { result ≡ rules.breaks_pool_size (past history.now) (point_of point.now) }
{
    pool_size_of(history, point).is_some()
}

/// POOL_SIZE: what a resource asks for, and the size of a block of its pool, where it's more than half
/// of that.
pub fn pool_size_of(history: &History<'_>, point: &Point<'_>) -> Option<OverHalf>
    ensures broken { is_some result ≡ rules.breaks_pool_size (past history.now) (point_of point.now) }
    ensures reported { IfSome result (λ m. OnHost (action_of point.now.action) (λ x. IsOverHalf (past history.now) x m)) }
{
    match point.action {
        Action::Host(Entry::Buffer { info, .. }) => buffer_over_half(history, info),
        Action::Host(Entry::Image { info, .. }) => image_over_half(history, info),
        _ => None,
    }
}

fn buffer_over_half(history: &History<'_>, info: &BufferInfo) -> Option<OverHalf>
    ensures broken { is_some result ≡ is_over_half (past history.now) info.now.place (of_buffer info.now).size }
    ensures reported { IfSome result (IsOverHalfOf (past history.now) info.now.place (reported_need (of_buffer info.now).size)) }
{
    match info.place {
        Place::Pool { pool } | Place::PoolUpper { pool } => {
            let block_size = history.pool(pool)?.block_size;
            let need = buffer_need_past(info, 0, block_size / 2)?;
            Some(OverHalf {
                pool,
                need,
                block_size,
            })
        }
        _ => None,
    }
}

fn image_over_half(history: &History<'_>, info: &ImageInfo) -> Option<OverHalf>
    ensures broken { is_some result ≡ is_over_half (past history.now) info.now.place (of_image info.now).size }
    ensures reported { IfSome result (IsOverHalfOf (past history.now) info.now.place (reported_need (of_image info.now).size)) }
{
    match info.place {
        Place::Pool { pool } | Place::PoolUpper { pool } => {
            let block_size = history.pool(pool)?.block_size;
            let need = image_need_past(info, 0, block_size / 2)?;
            Some(OverHalf {
                pool,
                need,
                block_size,
            })
        }
        _ => None,
    }
}
