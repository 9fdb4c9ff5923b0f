ghost use Rattle.std.specs.Prelude.{◌≡◌, IfOk};
ghost use Rattle.std.specs.List.{filter};
ghost use Rattle.vk_overlaps.specs.Inner.Planes as planes;

use crate::extents::{Extent, Span};
use std::alloc::{AllocError, Global};

/// An axis that parts lie along.
#[derive(Clone, Copy, Debug, PartialEq, Eq)]
pub enum Axis {
    /// Ids of resources.
    Resources,
    /// Levels of an image.
    Levels,
    /// Layers of an image.
    Layers,
    /// Rows of texels.
    Rows,
    /// Columns of texels, or bytes of a buffer.
    Columns,
}

/// The axes, in the order in which they are tried.
const AXES: [Axis; 5] = [
    Axis::Columns,
    Axis::Rows,
    Axis::Layers,
    Axis::Levels,
    Axis::Resources,
];

/// What divides the parts along an axis: those below a number from those at or above it.
#[derive(Clone, Copy, Debug, PartialEq, Eq)]
pub struct Plane {
    /// The axis that it is across.
    pub axis: Axis,
    /// The first number after it.
    pub at: u64,
}

/// A side of a plane.
#[derive(Clone, Copy, Debug, PartialEq, Eq)]
pub enum Side {
    /// What is below its number.
    Before,
    /// What is at its number or above it.
    After,
}

/// The span of a part along an axis.
fn span_along(axis: Axis, part: &Extent) -> Span
    ensures { result ≡ planes.span_along axis part.now }
{
    match axis {
        Axis::Resources => part.resources,
        Axis::Levels => part.levels,
        Axis::Layers => part.layers,
        Axis::Rows => part.rows,
        Axis::Columns => part.columns,
    }
}

/// Whether a part has something on a side of a plane.
fn is_on(plane: Plane, side: Side, part: &Extent) -> bool
    ensures { result ≡ planes.is_on plane side part.now }
{
    let span = span_along(plane.axis, part);
    match side {
        Side::Before => span.start < plane.at,
        Side::After => plane.at < span.start || plane.at - span.start < span.size,
    }
}

/// The parts that have something on a side of a plane.
pub fn on_side(
    alloc: Global,
    parts: &[Extent],
    plane: Plane,
    side: Side,
) -> Result<Vec<Extent>, AllocError>
    ensures { IfOk result (λ kept. kept.items ≡ filter (planes.is_on plane side) parts.now) }
{
    let mut kept = Vec::from_slice(alloc, parts)?;
    kept.retain(|part| is_on(plane, side, part));
    Ok(kept)
}

/// A plane with clearly fewer of the parts on either side than there are, if one is found.
pub fn plane_among(alloc: Global, parts: &[Extent]) -> Result<Option<Plane>, AllocError> {
    let mut best = None;
    let mut least = parts.len() - parts.len() / 8;
    for axis in &AXES {
        let plane = middle_plane(alloc, parts, *axis)?;
        let most = most_on_a_side(parts, plane);
        if most < least {
            least = most;
            best = Some(plane);
        }
        if most <= parts.len() - parts.len() / 3 {
            break;
        }
    }
    Ok(best)
}

/// The plane across an axis at which the middle one of the parts begins.
fn middle_plane(alloc: Global, parts: &[Extent], axis: Axis) -> Result<Plane, AllocError> {
    let mut starts = Vec::with_capacity(alloc, parts.len())?;
    for part in parts {
        starts.push(span_along(axis, part).start)?;
    }
    starts.sort_unstable();
    let at = match starts.get(starts.len() / 2) {
        Some(start) => *start,
        None => 0,
    };
    Ok(Plane { axis, at })
}

/// How many of the parts are on that side of a plane on which there are more.
fn most_on_a_side(parts: &[Extent], plane: Plane) -> usize {
    let before = parts
        .iter()
        .filter(|part| is_on(plane, Side::Before, part))
        .count();
    let after = parts
        .iter()
        .filter(|part| is_on(plane, Side::After, part))
        .count();
    before.max(after)
}
