ghost use Rattle.std.specs.Prelude.{◌≡◌, IfSome, is_some, option_and_then};
ghost use Rattle.vk_model.specs.Basics.{holds};
ghost use Rattle.vk_model.specs.Trace.Objects as objects;
ghost use Rattle.vk_model.specs.Rules.Passes as rules;
ghost use Rattle.vk_model.specs.Trace.PointViews.{action_of, point_of};
ghost use Rattle.vk_history.specs.PointViews.{past};
ghost use Rattle.vk_rules.specs.Sizes.{OnHost};
ghost use Rattle.vk_rules.specs.Passes.{IsPoolKind};
ghost use Rattle.vk_rules.specs.Inner.Passes.{IsUnable, IsUnableAt};

use vk_history::History;
use vk_model::{Action, Entry, Place, Point, PoolKind};

/// What is asked of a pool.
#[derive(Clone, Copy)]
pub enum PoolAsked {
    /// To be defragmented, which a linear pool can't.
    Defragments,
    /// An upper end, which only a linear pool of one block has.
    UpperEnd,
}

/// POOL_KIND: a pool that can't do what is asked of it.
#[derive(Clone, Copy)]
pub struct PoolUse {
    /// The id of the pool.
    pub pool: u32,
    /// What is asked.
    pub asked: PoolAsked,
    /// Which algorithm the pool has.
    pub kind: PoolKind,
    /// How many blocks it may have.
    pub block_limit: u32,
}

/// POOL_KIND: a defragmentation of a linear pool, or a place at the upper end of a pool that has none.
pub fn breaks_pool_kind(history: &History<'_>, point: &Point<'_>) -> bool
    ensures { result ≡ rules.breaks_pool_kind (past history.now) (point_of point.now) }
{
    pool_kind_of(history, point).is_some()
}

/// POOL_KIND: what a point asks of a pool, where the pool can't do it.
pub fn pool_kind_of(history: &History<'_>, point: &Point<'_>) -> Option<PoolUse>
    ensures broken { is_some result ≡ rules.breaks_pool_kind (past history.now) (point_of point.now) }
    ensures reported { IfSome result (λ m. OnHost (action_of point.now.action) (λ x. IsPoolKind (past history.now) x m)) }
{
    match point.action {
        Action::Host(Entry::Defrag { pool, .. }) => of_defrag(history, *pool),
        Action::Host(Entry::Buffer { info, .. }) => of_place(history, info.place),
        Action::Host(Entry::Image { info, .. }) => of_place(history, info.place),
        _ => None,
    }
}

fn of_defrag(history: &History<'_>, id: u32) -> Option<PoolUse>
    ensures broken { is_some result ≡ holds (objects.pool (past history.now) id) (λ x. rules.is_linear_kind x.kind) }
    ensures reported { IfSome result (IsUnable (past history.now) PoolAsked.Defragments id) }
{
    let info = history.pool(id)?;
    if is_linear(info.kind) {
        Some(PoolUse {
            pool: id,
            asked: PoolAsked::Defragments,
            kind: info.kind,
            block_limit: info.block_limit,
        })
    } else {
        None
    }
}

fn of_place(history: &History<'_>, place: Place) -> Option<PoolUse>
    ensures broken { is_some result ≡ holds (option_and_then (objects.pool (past history.now)) (rules.upper_pool place)) rules.has_no_upper }
    ensures reported { IfSome result (IsUnableAt (past history.now) place) }
{
    match place {
        Place::PoolUpper { pool } => of_upper(history, pool),
        _ => None,
    }
}

fn of_upper(history: &History<'_>, id: u32) -> Option<PoolUse>
    ensures broken { is_some result ≡ holds (objects.pool (past history.now) id) rules.has_no_upper }
    ensures reported { IfSome result (IsUnable (past history.now) PoolAsked.UpperEnd id) }
{
    let info = history.pool(id)?;
    if is_linear(info.kind) && info.block_limit == 1 {
        None
    } else {
        Some(PoolUse {
            pool: id,
            asked: PoolAsked::UpperEnd,
            kind: info.kind,
            block_limit: info.block_limit,
        })
    }
}

fn is_linear(kind: PoolKind) -> bool
    ensures { result ≡ rules.is_linear_kind kind }
{
    match kind {
        PoolKind::Tlsf => false,
        PoolKind::Linear => true,
    }
}
