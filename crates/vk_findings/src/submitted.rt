ghost use Rattle.std.specs.Prelude.{◌≡◌, true, IfSome};
ghost use Rattle.std.specs.List.{list_any};
ghost use Rattle.vk_model.specs.Basics.{among, option_list};
ghost use Rattle.vk_model.specs.Trace.Point.{Run};
ghost use Rattle.vk_model.specs.World.Ownership as ownership;
ghost use Rattle.vk_model.specs.Sync.Complete.{names};
ghost use Rattle.vk_model.specs.Trace.PointViews.{point_of};
ghost use Rattle.vk_queues.specs.PointViews.{past_of};
ghost use Rattle.vk_findings.specs.Inner.Submits.{IsCommandAt, IsNaming, IsSubmit, IsSubmitted};

use crate::named::{Spot, named_by_element, used_by};
use vk_model::{Action, Batch, Cmd, Element, Entry, Point};

/// Whether some points submit a command at a place that names a resource.
pub fn is_submitted(points: &[Point<'_>], spot: Spot, resource: u32) -> bool
    ensures { result ≡ true → IsSubmitted (past_of points.now) spot resource }
{
    for point in points {
        if submits(point, spot, resource) {
            return true;
        }
    }
    false
}

/// Whether a point does.
fn submits(point: &Point<'_>, spot: Spot, resource: u32) -> bool
    ensures { result ≡ true → IsSubmit (point_of point.now) spot resource }
{
    match point.action {
        Action::Host(Entry::Submit { batches, .. }) => {
            point.entry == spot.entry && has_naming(batches.as_slice(), spot, resource)
        }
        _ => false,
    }
}

/// Whether the command of some batches that is at a place names a resource.
fn has_naming(batches: &[Batch], spot: Spot, resource: u32) -> bool
    ensures { result ≡ true → IsNaming batches.now spot resource }
{
    match command_at(batches, spot) {
        Some(command) => names(command, resource),
        None => false,
    }
}

/// The command of some batches that is at a place.
fn command_at<'a>(batches: &'a [Batch], spot: Spot) -> Option<&'a Cmd>
    ensures { IfSome result (λ c. IsCommandAt batches.now spot c.now) }
{
    let batch = batches.get(spot.batch)?;
    batch.commands.as_slice().get(spot.place)
}

/// Whether a command names a resource.
pub fn names(command: &Cmd, resource: u32) -> bool
    ensures { result ≡ names resource (Run command.now) }
{
    match command {
        Cmd::Barrier { elements } => some_names(elements.as_slice(), resource),
        _ => used_by(command).has(resource),
    }
}

fn some_names(elements: &[Element], resource: u32) -> bool
    ensures { result ≡ list_any (λ e. among resource (option_list (ownership.named_by e))) elements.now }
{
    elements.iter().any(|element| is_named(element, resource))
}

fn is_named(element: &Element, resource: u32) -> bool
    ensures { result ≡ among resource (option_list (ownership.named_by element.now)) }
{
    match named_by_element(element) {
        Some(named) => resource == named,
        None => false,
    }
}
