ghost use Rattle.std.specs.Prelude.{◌≡◌, IfSome, Some, is_some};
ghost use Rattle.std.specs.List.{list_any};
ghost use Rattle.vk_model.specs.declared.command.Element.TheVariants as element_of;
ghost use Rattle.vk_model.specs.World.Effect.{world};
ghost use Rattle.vk_model.specs.World.Ownership as ownership;
ghost use Rattle.vk_model.specs.Rules.Layouts as layouts;
ghost use Rattle.vk_model.specs.Trace.PointViews.{point_of};
ghost use Rattle.vk_history.specs.PointViews.{past};
ghost use Rattle.vk_rules.specs.Layouts.{IsOldTransition, IsWrongTransition, transition_in};
ghost use Rattle.vk_rules.specs.Inner.Layouts.{IsWrongAt};

use vk_history::{History, family_of, is_transition};
use vk_layouts::Transfer;
use vk_model::{Action, Cmd, Element, Families, ImageElement, Layout, Point, SubresourceRange};

/// A layout transition.
#[derive(Clone, Copy)]
pub struct Transition {
    /// The index of the dependency element.
    pub element: usize,
    /// The id of the image.
    pub image: u32,
    /// The levels and layers.
    pub range: SubresourceRange,
    /// The number of the layout before it.
    pub old_layout: u32,
    /// The number of the layout after it.
    pub new_layout: u32,
}

/// LAYOUT: the first transition of a command that can't be.
pub fn bad_transition_of(command: &Cmd) -> Option<Transition>
    ensures broken { is_some result ≡ list_any layouts.bad_transition (ownership.elements_of command.now) }
    ensures reported { IfSome result (IsWrongTransition layouts.bad_transition (ownership.elements_of command.now)) }
{
    match command {
        Cmd::Barrier { elements } => bad_among(elements.as_slice()),
        _ => None,
    }
}

fn bad_among(elements: &[Element]) -> Option<Transition>
    ensures broken { is_some result ≡ list_any layouts.bad_transition elements.now }
    ensures reported { IfSome result (IsWrongTransition layouts.bad_transition elements.now) }
{
    for (index, element) in elements.iter().enumerate() {
        if let Some(found) = bad_one(index, element) {
            return Some(found);
        }
    }
    None
}

fn bad_one(index: usize, element: &Element) -> Option<Transition>
    ensures broken { is_some result ≡ layouts.bad_transition element.now }
    ensures reported { IfSome result (IsWrongAt layouts.bad_transition index element.now) }
{
    match element {
        Element::Image(on_image) if is_bad(on_image) => Some(transition_of(index, on_image)),
        _ => None,
    }
}

fn is_bad(on_image: &ImageElement) -> bool
    ensures { result ≡ layouts.bad_transition (element_of.Image on_image.now) }
{
    is_transition(on_image)
        && (!is_layout(on_image.old_layout)
            || !is_layout(on_image.new_layout)
            || on_image.new_layout == Layout::UNDEFINED)
}

/// Whether a number is a layout of the profile.
fn is_layout(layout: Layout) -> bool
    ensures { result ≡ layouts.is_layout layout }
{
    layout == Layout::UNDEFINED
        || layout == Layout::GENERAL
        || layout == Layout::TRANSFER_SRC_OPTIMAL
        || layout == Layout::TRANSFER_DST_OPTIMAL
}

/// OLD_LAYOUT: a transition from a layout that isn't the subresources' current one.
pub fn breaks_old_layout(history: &History<'_>, point: &Point<'_>) -> bool
    ensures { result ≡ layouts.breaks_old_layout (past history.now) (point_of point.now) }
{
    old_layout_of(history, point).is_some()
}

/// OLD_LAYOUT: the first transition of a point from a layout that isn't the subresources' current one.
pub fn old_layout_of(history: &History<'_>, point: &Point<'_>) -> Option<Transition>
    ensures broken { is_some result ≡ layouts.breaks_old_layout (past history.now) (point_of point.now) }
    ensures reported { IfSome result (IsOldTransition (past history.now) (point_of point.now)) }
{
    match point.action {
        Action::Run(Cmd::Barrier { elements }) => {
            old_among(history, point.queue, elements.as_slice())
        }
        _ => None,
    }
}

fn old_among(history: &History<'_>, queue: u32, elements: &[Element]) -> Option<Transition>
    ensures broken { is_some result ≡ list_any (layouts.bad_old_layout (world (past history.now)) queue) elements.now }
    ensures reported { IfSome result (IsWrongTransition (layouts.bad_old_layout (world (past history.now)) queue) elements.now) }
{
    for (index, element) in elements.iter().enumerate() {
        if let Some(found) = old_one(history, queue, index, element) {
            return Some(found);
        }
    }
    None
}

fn old_one(history: &History<'_>, queue: u32, index: usize, element: &Element) -> Option<Transition>
    ensures broken { is_some result ≡ layouts.bad_old_layout (world (past history.now)) queue element.now }
    ensures reported { IfSome result (IsWrongAt (layouts.bad_old_layout (world (past history.now)) queue) index element.now) }
{
    match element {
        Element::Image(on_image) if leaves_other(history, queue, on_image) => {
            Some(transition_of(index, on_image))
        }
        _ => None,
    }
}

fn leaves_other(history: &History<'_>, queue: u32, on_image: &ImageElement) -> bool
    ensures { result ≡ layouts.bad_old_layout (world (past history.now)) queue (element_of.Image on_image.now) }
{
    is_transition(on_image)
        && !acquires(queue, on_image.families)
        && on_image.old_layout != Layout::UNDEFINED
        && !history.is_in(on_image.image, &on_image.range, on_image.old_layout)
}

/// Whether an element with these families is the second half of a transfer on a queue.
fn acquires(queue: u32, families: Families) -> bool
    ensures { result
        ≡ ownership.acquires (ownership.transfer (ownership.family_of queue) families) }
{
    matches!(Transfer::of(family_of(queue), families), Transfer::Acquire)
}

/// The transition that an image element is.
fn transition_of(index: usize, on_image: &ImageElement) -> Transition
    ensures element { result.element ≡ index }
    ensures transition { transition_in index (element_of.Image on_image.now) ≡ Some result }
{
    Transition {
        element: index,
        image: on_image.image,
        range: on_image.range,
        old_layout: on_image.old_layout.code(),
        new_layout: on_image.new_layout.code(),
    }
}
