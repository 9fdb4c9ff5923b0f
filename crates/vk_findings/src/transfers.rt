ghost use Rattle.std.specs.Prelude.{◌≡◌, ◌∷◌, true, IfOk, IfSome};
ghost use Rattle.vk_model.specs.Rules.Owners.{breaks_owner_pair};
ghost use Rattle.vk_model.specs.Trace.PointViews.{action_of, point_of};
ghost use Rattle.vk_model.specs.Trace.Structure.{IsOrdered};
ghost use Rattle.vk_history.specs.PointViews.{past};
ghost use Rattle.vk_rules.specs.Owners.{AreUnpaired, IsUnpaired};
ghost use Rattle.vk_findings.specs.Transfers.{IsOwnerPair, AreTransfers};

use crate::owners::{Ownership, ownership_of, takes_some};
use std::alloc::AllocError;
use vk_history::History;
use vk_model::{Action, Cmd, Element, Families, Point};
use vk_rules::{OwnerFault, Unpaired};

/// OWNER_PAIR: a release or an acquire, and who owns its resource.
#[derive(Clone, Copy)]
pub struct OwnerState<'a> {
    /// The index of the dependency element.
    pub element: usize,
    /// The id of the resource.
    pub resource: u32,
    /// The queue families of the element.
    pub families: Families,
    /// What doesn't fit.
    pub fault: OwnerFault,
    /// The owner of the resource, and since when.
    pub owned: Ownership<'a>,
}

/// OWNER_PAIR: the first release or acquire of a point that doesn't fit the owner of its resource, and
/// since when that owns it. None is reported of one whose owner an earlier element of the point changes.
/// The only error is want of memory.
pub fn owner_pair_of<'a>(
    history: &History<'a>,
    point: &Point<'a>,
) -> Result<Option<OwnerState<'a>>, AllocError>
    requires ordered { IsOrdered (point_of point.now ∷ past history.now) }
    ensures broken { IfOk result (λ found. IfSome found (λ s. breaks_owner_pair (past history.now) (point_of point.now) ≡ true)) }
    ensures reported { IfOk result (λ found. IfSome found (IsOwnerPair (past history.now) point.now.queue (action_of point.now.action))) }
{
    match vk_rules::owner_pair_of(history, point)? {
        Some(unpaired) => Ok(owned_at(history, point, unpaired)),
        None => Ok(None),
    }
}

fn owned_at<'a>(
    history: &History<'a>,
    point: &Point<'a>,
    unpaired: Unpaired,
) -> Option<OwnerState<'a>>
    requires { IsUnpaired (past history.now) point.now.queue (action_of point.now.action) unpaired }
    ensures { IfSome result (IsOwnerPair (past history.now) point.now.queue (action_of point.now.action)) }
{
    match point.action {
        Action::Run(Cmd::Barrier { elements }) => {
            owned_among(history, point.queue, elements.as_slice(), unpaired)
        }
        _ => None,
    }
}

fn owned_among<'a>(
    history: &History<'a>,
    queue: u32,
    elements: &[Element],
    unpaired: Unpaired,
) -> Option<OwnerState<'a>>
    requires { AreUnpaired (past history.now) queue elements.now unpaired }
    ensures { IfSome result (AreTransfers (past history.now) queue elements.now) }
{
    let owned = ownership_of(history, unpaired.resource);
    let earlier = &elements[..unpaired.element];
    if takes_some(owned.is_exclusive, queue, earlier, unpaired.resource) {
        return None;
    }
    Some(OwnerState {
        element: unpaired.element,
        resource: unpaired.resource,
        families: unpaired.families,
        fault: unpaired.fault,
        owned,
    })
}
