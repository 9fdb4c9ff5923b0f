ghost use Rattle.std.specs.Prelude.{◌≡◌, ◌==◌, ◌&&◌, ℕ, IfOk, is_some, unwrap_or};
ghost use Rattle.std.specs.List.{list_any, fold};
ghost use Rattle.vk_model.specs.Basics.{within};
ghost use Rattle.vk_model.specs.Trace.PointViews.{action_of, point_of};
ghost use Rattle.vk_queues.specs.PointViews.{past_of};
ghost use Rattle.vk_findings.specs.Layouts.{changes_at, takes_place, transitions};
ghost use Rattle.vk_findings.specs.Inner.LayoutSteps.{layout_by, layout_by_point, takes_some, ShowLayouts};

use std::alloc::{AllocError, Global};
use vk_history::is_transition;
use vk_model::{Action, Cmd, Element, ImageElement, Point, SubresourceRange};
use vk_order::is_acquire;

/// A subresource of an image.
#[derive(Clone, Copy)]
pub struct Subresource {
    /// The id of the image.
    pub image: u32,
    /// The mip level.
    pub level: u64,
    /// The array layer.
    pub layer: u64,
}

/// Those of some points in which a layout transition takes place.
pub fn with_transitions<'a>(
    alloc: Global,
    points: &[Point<'a>],
) -> Result<Vec<Point<'a>>, AllocError>
    ensures { IfOk result (λ kept. ShowLayouts (past_of kept.items) (past_of points.now)) }
{
    let mut kept = Vec::new(alloc);
    for point in points {
        if has_transition(point) {
            kept.push(*point)?;
        }
    }
    Ok(kept)
}

/// Whether a layout transition takes place at a point.
fn has_transition(point: &Point<'_>) -> bool
    ensures { result ≡ takes_some (point_of point.now) }
{
    match point.action {
        Action::Run(Cmd::Barrier { elements }) => {
            some_takes_place(point.queue, elements.as_slice())
        }
        _ => false,
    }
}

fn some_takes_place(queue: u32, elements: &[Element]) -> bool
    ensures { result ≡ list_any (takes_place queue) elements.now }
{
    elements
        .iter()
        .any(|element| is_taking_place(queue, element))
}

/// Whether an element is a layout transition that takes place on a queue: that of an ownership
/// transfer does so at the acquire alone.
fn is_taking_place(queue: u32, element: &Element) -> bool
    ensures { result ≡ takes_place queue element.now }
{
    match element {
        Element::Image(on_image) => {
            is_transition(on_image) && (is_within_family(on_image) || is_acquire(queue, element))
        }
        _ => false,
    }
}

fn is_within_family(element: &ImageElement) -> bool
    ensures { result ≡ element.now.families.source == element.now.families.destination }
{
    element.families.source == element.families.destination
}

/// The number of the layout to which a point brings a subresource, by the last transition of it.
pub fn layout_set_by(point: &Point<'_>, at: Subresource) -> Option<u32>
    ensures found { is_some result ≡ transitions at.image at.level at.layer (point_of point.now) }
    ensures layout { (before : ℕ) → layout_by_point at.image at.level at.layer (point_of point.now) before ≡ unwrap_or result before }
{
    match point.action {
        Action::Run(Cmd::Barrier { elements }) => {
            layout_set_among(point.queue, elements.as_slice(), at)
        }
        _ => None,
    }
}

fn layout_set_among(queue: u32, elements: &[Element], at: Subresource) -> Option<u32>
    ensures found { is_some result ≡ list_any (changes_at queue at.image at.level at.layer) elements.now }
    ensures layout { (before : ℕ) → fold (layout_by queue at.image at.level at.layer) before elements.now ≡ unwrap_or result before }
{
    let mut found = None;
    for element in elements {
        if let Some(layout) = layout_set(queue, element, at) {
            found = Some(layout);
        }
    }
    found
}

fn layout_set(queue: u32, element: &Element, at: Subresource) -> Option<u32>
    ensures found { is_some result ≡ changes_at queue at.image at.level at.layer element.now }
    ensures layout { (before : ℕ) → layout_by queue at.image at.level at.layer before element.now ≡ unwrap_or result before }
{
    let Element::Image(on_image) = element else {
        return None;
    };
    if is_taking_place(queue, element)
        && at.image == on_image.image
        && covers(&on_image.range, at)
    {
        Some(on_image.new_layout.code())
    } else {
        None
    }
}

/// Whether a range has a level and a layer.
fn covers(range: &SubresourceRange, at: Subresource) -> bool
    ensures { result ≡ (within range.now.first_level range.now.levels at.level && within range.now.first_layer range.now.layers at.layer) }
{
    is_among(range.first_level, range.levels, at.level)
        && is_among(range.first_layer, range.layers, at.layer)
}

/// Whether a number is one of so many from a first one on.
fn is_among(first: u32, count: u32, number: u64) -> bool
    ensures { result ≡ within first count number }
{
    let first = u64::from(first);
    first <= number && number < first + u64::from(count)
}
