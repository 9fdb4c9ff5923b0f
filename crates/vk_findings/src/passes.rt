ghost use Rattle.std.specs.Prelude.{◌≡◌, true, IfSome, Some, is_some};
ghost use Rattle.vk_model.specs.Rules.Passes as rules;
ghost use Rattle.vk_history.specs.PointViews.{past};
ghost use Rattle.vk_rules.specs.Passes.{IsInPass};
ghost use Rattle.vk_findings.specs.Defrags.{IsMoving, IsOpenPass};

use crate::begun::{Sought, began};
use vk_history::History;
use vk_model::Point;
use vk_rules::InPass;

/// A pass that has begun and not ended.
#[derive(Clone, Copy)]
pub struct OpenPass<'a> {
    /// The id of its defragmentation.
    pub defrag: u32,
    /// The last entry that began a pass of it.
    pub begun: Point<'a>,
}

/// A resource that lies in a pool of which a pass is open.
#[derive(Clone, Copy)]
pub struct MovingResource<'a> {
    /// The id of the resource.
    pub resource: u32,
    /// The id of its pool.
    pub pool: u32,
    /// The pass.
    pub pass: OpenPass<'a>,
}

/// A pass that is open, of any defragmentation that hasn't ended.
pub fn any_pass<'a>(history: &History<'a>) -> Option<OpenPass<'a>>
    ensures found { rules.some_pass (past history.now) ≡ true → is_some result ≡ true }
    ensures defrag { IfSome result (λ o. is_some (rules.pool_of_defrag (past history.now) o.defrag) ≡ true) }
    ensures reported { IfSome result (IsOpenPass (past history.now)) }
{
    let found = began(history, Sought::AnyPass)?;
    Some(OpenPass {
        defrag: found.defrag,
        begun: found.point,
    })
}

/// The pass of a defragmentation that is open.
pub fn pass_of<'a>(history: &History<'a>, defrag: u32) -> Option<OpenPass<'a>>
    ensures found { rules.in_pass (past history.now) defrag ≡ true → is_some result ≡ true }
    ensures same { IfSome result (λ o. o.defrag ≡ defrag) }
    ensures reported { IfSome result (IsOpenPass (past history.now)) }
{
    let found = began(history, Sought::PassOf { defrag })?;
    Some(OpenPass {
        defrag: found.defrag,
        begun: found.point,
    })
}

/// The pass of a pool that is open.
fn pass_in<'a>(history: &History<'a>, pool: u32) -> Option<OpenPass<'a>>
    ensures found { rules.pool_in_pass (past history.now) pool ≡ true → is_some result ≡ true }
    ensures defrag { IfSome result (λ o. rules.pool_of_defrag (past history.now) o.defrag ≡ Some pool) }
    ensures reported { IfSome result (IsOpenPass (past history.now)) }
{
    let found = began(history, Sought::PassIn { pool })?;
    Some(OpenPass {
        defrag: found.defrag,
        begun: found.point,
    })
}

/// A resource in a pass, with the pass.
pub fn with_pass<'a>(history: &History<'a>, resource: InPass) -> Option<MovingResource<'a>>
    requires { IsInPass (past history.now) resource }
    ensures found { is_some result ≡ true }
    ensures same { IfSome result (λ m. m.resource ≡ resource.resource) }
    ensures reported { IfSome result (IsMoving (past history.now)) }
{
    let pass = pass_in(history, resource.pool)?;
    Some(MovingResource {
        resource: resource.resource,
        pool: resource.pool,
        pass,
    })
}
