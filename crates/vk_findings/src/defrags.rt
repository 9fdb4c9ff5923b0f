ghost use Rattle.std.specs.Prelude.{◌≡◌, true, IfSome, is_some};
ghost use Rattle.vk_model.specs.Rules.Passes.{has_defrag};
ghost use Rattle.vk_history.specs.PointViews.{past};
ghost use Rattle.vk_findings.specs.Defrags.{IsOpenDefrag};

use crate::begun::{Sought, began};
use vk_history::History;
use vk_model::Point;

/// A defragmentation that hasn't ended.
#[derive(Clone, Copy)]
pub struct OpenDefrag<'a> {
    /// The id of the defragmentation.
    pub defrag: u32,
    /// The id of its pool.
    pub pool: u32,
    /// The entry that began it.
    pub begun: Point<'a>,
}

/// The defragmentation of a pool that hasn't ended.
pub fn open_defrag<'a>(history: &History<'a>, pool: u32) -> Option<OpenDefrag<'a>>
    ensures found { has_defrag (past history.now) pool ≡ true → is_some result ≡ true }
    ensures reported { IfSome result (λ o. (o.pool ≡ pool) × IsOpenDefrag (past history.now) o) }
{
    let found = began(history, Sought::Defrag { pool })?;
    Some(OpenDefrag {
        defrag: found.defrag,
        pool,
        begun: found.point,
    })
}
