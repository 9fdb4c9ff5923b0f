ghost use Rattle.std.specs.Prelude.{◌≡◌, ◌∷◌, IfOk, IfSome, is_some};
ghost use Rattle.vk_model.specs.declared.command.Cmd.TheVariants as cmd;
ghost use Rattle.vk_model.specs.Trace.Point.{Run};
ghost use Rattle.vk_model.specs.Trace.Structure.{IsOrdered};
ghost use Rattle.vk_model.specs.Rules.Owners as owners;
ghost use Rattle.vk_model.specs.Trace.PointViews.{action_of, point_of};
ghost use Rattle.vk_history.specs.PointViews.{past};
ghost use Rattle.vk_rules.specs.Owners.{AreUnpaired, IsUnpaired};

use crate::halves::{Changed, unpaired_at};
use std::alloc::AllocError;
use vk_history::History;
use vk_model::{Action, Cmd, Element, Families, Point};

/// Why a release or an acquire doesn't fit the owner of its resource.
#[derive(Clone, Copy, Debug, PartialEq, Eq)]
pub enum OwnerFault {
    /// One of its queue families is none.
    UnknownFamily,
    /// The resource is concurrent: no family owns it.
    Concurrent,
    /// The queue is of neither of its families.
    OtherQueue,
    /// It releases what is released.
    ReleasedTwice,
    /// It acquires what isn't released.
    Unreleased,
    /// It acquires what is released to other families or with other layouts.
    OtherHalf,
    /// It acquires what its other half has released, which doesn't come before it.
    Unordered,
}

/// OWNER_PAIR: a release or an acquire that doesn't fit the owner of its resource.
#[derive(Clone, Copy)]
pub struct Unpaired {
    /// The index of the dependency element.
    pub element: usize,
    /// The id of the resource.
    pub resource: u32,
    /// The queue families of the element.
    pub families: Families,
    /// What doesn't fit.
    pub fault: OwnerFault,
}

/// OWNER_PAIR: a release or acquire that doesn't fit its other half, its queue or its resource. The
/// only error is want of memory.
pub fn breaks_owner_pair(history: &History<'_>, point: &Point<'_>) -> Result<bool, AllocError>
    requires ordered { IsOrdered (point_of point.now ∷ past history.now) }
    ensures { IfOk result (λ broken. broken ≡ owners.breaks_owner_pair (past history.now) (point_of point.now)) }
{
    let found = owner_pair_of(history, point)?;
    Ok(found.is_some())
}

/// OWNER_PAIR: the first release or acquire of a point that doesn't fit its other half, its queue or its
/// resource, as the elements before it leave that. The only error is want of memory.
pub fn owner_pair_of(
    history: &History<'_>,
    point: &Point<'_>,
) -> Result<Option<Unpaired>, AllocError>
    requires ordered { IsOrdered (point_of point.now ∷ past history.now) }
    ensures broken { IfOk result (λ found. is_some found ≡ owners.breaks_owner_pair (past history.now) (point_of point.now)) }
    ensures reported { IfOk result (λ found. IfSome found (IsUnpaired (past history.now) point.now.queue (action_of point.now.action))) }
{
    match point.action {
        Action::Run(command) => of_command(history, point, command),
        Action::Host(_) => Ok(None),
        Action::Wait(_) => Ok(None),
        Action::Signal(_) => Ok(None),
    }
}

fn of_command(
    history: &History<'_>,
    point: &Point<'_>,
    command: &Cmd,
) -> Result<Option<Unpaired>, AllocError>
    requires ordered { IsOrdered (point_of point.now ∷ past history.now) }
    requires runs { action_of point.now.action ≡ Run command.now }
    ensures broken { IfOk result (λ found. is_some found ≡ owners.breaks_owner_pair (past history.now) (point_of point.now)) }
    ensures reported { IfOk result (λ found. IfSome found (IsUnpaired (past history.now) point.now.queue (Run command.now))) }
{
    match command {
        Cmd::Barrier { elements } => of_elements(history, point, elements.as_slice()),
        _ => Ok(None),
    }
}

fn of_elements(
    history: &History<'_>,
    point: &Point<'_>,
    elements: &[Element],
) -> Result<Option<Unpaired>, AllocError>
    requires ordered { IsOrdered (point_of point.now ∷ past history.now) }
    requires barrier { action_of point.now.action ≡ Run (cmd.Barrier elements.now) }
    ensures broken { IfOk result (λ found. is_some found ≡ owners.breaks_owner_pair (past history.now) (point_of point.now)) }
    ensures reported { IfOk result (λ found. IfSome found (AreUnpaired (past history.now) point.now.queue elements.now)) }
{
    let mut changed = Changed::new(history.alloc());
    for (index, element) in elements.iter().enumerate() {
        let found = unpaired_at(history, point, index, element, &mut changed)?;
        if found.is_some() {
            return Ok(found);
        }
    }
    Ok(None)
}
