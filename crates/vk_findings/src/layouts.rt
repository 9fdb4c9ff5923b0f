ghost use Rattle.std.specs.Prelude.{◌≡◌, IfOk, IfSome, is_some, true};
ghost use Rattle.vk_model.specs.Trace.Point as spec;
ghost use Rattle.vk_model.specs.Rules.Layouts as rules;
ghost use Rattle.vk_model.specs.Trace.PointViews.{action_of, point_of};
ghost use Rattle.vk_queues.specs.PointViews.{past_of};
ghost use Rattle.vk_history.specs.PointViews.{past};
ghost use Rattle.vk_rules.specs.Layouts.{IsWrongLayout, IsOldTransition};
ghost use Rattle.vk_findings.specs.Layouts.{IsLayout, IsOldLayout};
ghost use Rattle.vk_findings.specs.Inner.LayoutSteps.{ShowLayouts};

use crate::subresources::{CurrentLayout, current_at, first_other};
use crate::transitions::{Subresource, with_transitions};
use std::alloc::{AllocError, Global};
use vk_history::History;
use vk_model::Point;
use vk_rules::{NamedPart, Transition, WrongLayout};

/// A subresource of a part of an image that a command names in a layout.
#[derive(Clone, Copy)]
pub struct NamedLayout<'a> {
    /// The part, and the layout that is named for it.
    pub part: NamedPart,
    /// The subresource, and the layout that it is in.
    pub found: CurrentLayout<'a>,
}

/// LAYOUT: a layout that a command names wrongly.
#[derive(Clone, Copy)]
pub enum LayoutState<'a> {
    /// The layout isn't allowed for what the command does; the subresource is the first of its part.
    Unallowed(NamedLayout<'a>),
    /// The subresource is in another layout.
    Other(NamedLayout<'a>),
    /// The transition can't be: it is to UNDEFINED, or from or to a layout that isn't known.
    Transition(Transition),
}

/// OLD_LAYOUT: a subresource that isn't in the old layout of its transition.
#[derive(Clone, Copy)]
pub struct OldLayout<'a> {
    /// The transition.
    pub transition: Transition,
    /// The subresource, and the layout that it is in.
    pub found: CurrentLayout<'a>,
}

/// LAYOUT: the layout that a point names wrongly. Where there is one, it walks over the points before it
/// once, and for each level and layer of the part over those with layout transitions. The only error is
/// want of memory.
pub fn layout_of<'a>(
    alloc: Global,
    history: &History<'a>,
    point: &Point<'a>,
) -> Result<Option<LayoutState<'a>>, AllocError>
    ensures broken { IfOk result (λ found. is_some found ≡ rules.breaks_layout (past history.now) (point_of point.now)) }
    ensures reported { IfOk result (λ found. IfSome found (IsLayout (past history.now) (action_of point.now.action))) }
{
    let Some(wrong) = vk_rules::layout_of(history, point) else {
        return Ok(None);
    };
    let kept = with_transitions(alloc, history.happened())?;
    Ok(with_current(kept.as_slice(), wrong))
}

/// What is in a wrong layout, with the layout that it is in.
fn with_current<'a>(points: &[Point<'a>], wrong: WrongLayout) -> Option<LayoutState<'a>>
    ensures some { (before : spec.Past) (a : spec.Action) → ShowLayouts (past_of points.now) before → IsWrongLayout before a wrong → is_some result ≡ true }
    ensures reported { (before : spec.Past) (a : spec.Action) → ShowLayouts (past_of points.now) before → IsWrongLayout before a wrong → IfSome result (IsLayout before a) }
{
    match wrong {
        WrongLayout::Unallowed(part) => {
            let found = current_at(points, first_of(&part));
            Some(LayoutState::Unallowed(NamedLayout { part, found }))
        }
        WrongLayout::Other(part) => {
            let found = first_other(points, part.image, &part.range, part.layout)?;
            Some(LayoutState::Other(NamedLayout { part, found }))
        }
        WrongLayout::Transition(transition) => Some(LayoutState::Transition(transition)),
    }
}

/// The first subresource of a part.
fn first_of(part: &NamedPart) -> Subresource
    ensures { result ≡ record { image = part.now.image; level = part.now.range.first_level; layer = part.now.range.first_layer } }
{
    Subresource {
        image: part.image,
        level: u64::from(part.range.first_level),
        layer: u64::from(part.range.first_layer),
    }
}

/// OLD_LAYOUT: the first transition of a point from a layout that isn't current. It walks as
/// `layout_of` does.
pub fn old_layout_of<'a>(
    alloc: Global,
    history: &History<'a>,
    point: &Point<'a>,
) -> Result<Option<OldLayout<'a>>, AllocError>
    ensures broken { IfOk result (λ found. is_some found ≡ rules.breaks_old_layout (past history.now) (point_of point.now)) }
    ensures reported { IfOk result (λ found. IfSome found (IsOldLayout (past history.now) (point_of point.now))) }
{
    let Some(transition) = vk_rules::old_layout_of(history, point) else {
        return Ok(None);
    };
    let kept = with_transitions(alloc, history.happened())?;
    Ok(left_otherwise(kept.as_slice(), transition))
}

/// The first subresource of a transition that isn't in its old layout.
fn left_otherwise<'a>(points: &[Point<'a>], transition: Transition) -> Option<OldLayout<'a>>
    ensures some { (before : spec.Past) (p : spec.Point) → ShowLayouts (past_of points.now) before → IsOldTransition before p transition → is_some result ≡ true }
    ensures reported { (before : spec.Past) (p : spec.Point) → ShowLayouts (past_of points.now) before → IsOldTransition before p transition → IfSome result (IsOldLayout before p) }
{
    let layout = transition.old_layout;
    let found = first_other(points, transition.image, &transition.range, layout)?;
    Some(OldLayout { transition, found })
}
