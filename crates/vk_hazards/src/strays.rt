ghost use Rattle.std.specs.Prelude.{◌≡◌, ◌==◌, ◌++◌, IfSome, IfNone, Contains, option_and_then, not, true, false};
ghost use Rattle.std.specs.List.{list_any};
ghost use Rattle.vk_model.specs.Basics.{holds};
ghost use Rattle.vk_model.specs.Trace.Objects as objects;
ghost use Rattle.vk_model.specs.Trace.Point.{on_host};
ghost use Rattle.vk_model.specs.Rules.Ids as ids;
ghost use Rattle.vk_model.specs.Rules.Ids.{is_dead, judged_in, lists_stray};
ghost use Rattle.vk_model.specs.Trace.PointViews.{action_of, point_of};
ghost use Rattle.vk_queues.specs.PointViews.{past_of};
ghost use Rattle.vk_hazards.specs.Strays.{IsStray, IsStrayIn, IsListed, is_outside};

use crate::before::{live, made, pool_at};
use crate::lives::{Life, life_of};
use vk_model::{Action, Entry, Point};

/// That an end of a pass lists a resource that isn't in the pool of its defragmentation.
#[derive(Clone, Copy)]
pub struct StrayId<'a> {
    /// What became of the resource.
    pub life: Life<'a>,
    /// The id of the defragmentation.
    pub defrag: u32,
    /// The id of its pool.
    pub pool: u32,
}

/// LIVE_ID: the first resource that an end of a pass lists and that isn't in the pool of its
/// defragmentation; none where that isn't live.
pub fn stray_id<'a>(older: &[Point<'a>], point: &Point<'a>) -> Option<StrayId<'a>>
    ensures some { IfSome result (IsStray (past_of older.now) (action_of point.now.action)) }
    ensures none { IfNone result (list_any (is_dead (judged_in (past_of older.now) (point_of point.now))) (ids.asked_by (action_of point.now.action)) ≡ false → on_host (lists_stray (past_of older.now)) (point_of point.now) ≡ false) }
{
    match point.action {
        Action::Host(entry) => stray_in(older, entry),
        _ => None,
    }
}

fn stray_in<'a>(older: &[Point<'a>], entry: &Entry) -> Option<StrayId<'a>>
    ensures some { IfSome result (IsStrayIn (past_of older.now) entry.now) }
    ensures none { IfNone result (list_any (is_dead (past_of older.now)) (ids.asked_by_entry entry.now) ≡ false → lists_stray (past_of older.now) entry.now ≡ false) }
{
    match entry {
        Entry::EndPass {
            defrag,
            ignored,
            destroyed,
        } => stray_of(older, *defrag, ignored.as_slice(), destroyed.as_slice()),
        _ => None,
    }
}

/// The first listed resource that isn't in the pool of a live defragmentation.
fn stray_of<'a>(
    older: &[Point<'a>],
    defrag: u32,
    ignored: &[u32],
    destroyed: &[u32],
) -> Option<StrayId<'a>>
    ensures some { IfSome result (IsListed (past_of older.now) defrag (ignored.now ++ destroyed.now)) }
    ensures none { IfNone result (is_dead (past_of older.now) (defrag, ids.is_defrag) ≡ false → list_any (ids.is_stray (past_of older.now) defrag) (ignored.now ++ destroyed.now) ≡ false) }
{
    let pool = pool_of_defrag(older, defrag)?;
    let resource = listed_outside(older, pool, ignored, destroyed)?;
    Some(StrayId {
        life: life_of(older, resource),
        defrag,
        pool,
    })
}

/// The pool of a live defragmentation.
fn pool_of_defrag(points: &[Point<'_>], defrag: u32) -> Option<u32>
    ensures { result ≡ option_and_then objects.defrag_in (objects.live (past_of points.now) defrag) }
{
    match live(points, defrag) {
        Some(Entry::Defrag { pool, .. }) => Some(*pool),
        _ => None,
    }
}

/// The first id of two lists that isn't in a pool.
fn listed_outside(
    points: &[Point<'_>],
    pool: u32,
    ignored: &[u32],
    destroyed: &[u32],
) -> Option<u32>
    ensures some { IfSome result (λ r. Contains (ignored.now ++ destroyed.now) r × (is_outside (past_of points.now) pool r ≡ true)) }
    ensures none { IfNone result (list_any (is_outside (past_of points.now) pool) (ignored.now ++ destroyed.now) ≡ false) }
{
    match first_outside(points, pool, ignored) {
        Some(resource) => Some(resource),
        None => first_outside(points, pool, destroyed),
    }
}

/// The first of some ids that isn't in a pool.
fn first_outside(points: &[Point<'_>], pool: u32, ids: &[u32]) -> Option<u32>
    ensures some { IfSome result (λ r. Contains ids.now r × (is_outside (past_of points.now) pool r ≡ true)) }
    ensures none { IfNone result (list_any (is_outside (past_of points.now) pool) ids.now ≡ false) }
{
    for id in ids {
        if is_outside(points, pool, *id) {
            return Some(*id);
        }
    }
    None
}

/// Whether an id isn't that of a resource in a pool.
fn is_outside(points: &[Point<'_>], pool: u32, id: u32) -> bool
    ensures { result ≡ is_outside (past_of points.now) pool id }
{
    match pool_of(points, id) {
        Some(other) => other != pool,
        None => true,
    }
}

/// The pool that a resource is in.
fn pool_of(points: &[Point<'_>], id: u32) -> Option<u32>
    ensures { result ≡ objects.pool_of (past_of points.now) id }
{
    match made(points, id) {
        Some(Entry::Buffer { info, .. }) => pool_at(info.place),
        Some(Entry::Image { info, .. }) => pool_at(info.place),
        _ => None,
    }
}
