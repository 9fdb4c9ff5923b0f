ghost use Rattle.std.specs.Prelude.{◌≡◌, ◌∷◌, option_map};
ghost use Rattle.std.specs.List.{list_any};
ghost use Rattle.vk_model.specs.Basics.{among, holds};
ghost use Rattle.vk_model.specs.Trace.Objects.{is_exclusive, is_exclusive_mode, resource_in};
ghost use Rattle.vk_model.specs.Trace.Point.{Past};
ghost use Rattle.vk_model.specs.World.Effect.{world};
ghost use Rattle.vk_model.specs.World.Ownership as ownership;
ghost use Rattle.vk_layouts.specs.Owned.{transfer_of};
ghost use Rattle.vk_model.specs.Trace.PointViews.{point_of};
ghost use Rattle.vk_queues.specs.PointViews.{past_of};
ghost use Rattle.vk_history.specs.PointViews.{past};
ghost use Rattle.vk_findings.specs.Owners.{holder_of, owned_since, takes, takes_by, is_transition_of};

use vk_history::{History, Owned, family_of, is_transition};
use vk_layouts::Transfer;
use vk_model::{Action, Cmd, Element, Entry, Point, Sharing};

/// Who owns a resource.
#[derive(Clone, Copy)]
pub enum Holder<'a> {
    /// Nobody yet.
    Nobody,
    /// The queue family that used or acquired it last.
    Family(u32),
    /// A family has released it by an element, and it was neither acquired nor used since.
    Released(u32, &'a Element),
}

/// Who owns a resource, and since when.
#[derive(Clone, Copy)]
pub struct Ownership<'a> {
    /// The owner.
    pub holder: Holder<'a>,
    /// The last point that used, released or acquired the resource; none where nobody did.
    pub since: Option<Point<'a>>,
    /// Whether one queue family at a time owns it.
    pub is_exclusive: bool,
}

/// Who owns a resource, and since when.
pub fn ownership_of<'a>(history: &History<'a>, resource: u32) -> Ownership<'a>
    ensures holder { holder_of result.holder ≡ (world (past history.now)).owner resource }
    ensures since { option_map point_of result.since ≡ owned_since (past history.now) resource }
    ensures exclusive { result.is_exclusive ≡ is_exclusive (past history.now) resource }
{
    Ownership {
        holder: holder_of(history, resource),
        since: last_owned(history.happened(), resource),
        is_exclusive: history.is_exclusive(resource),
    }
}

fn holder_of<'a>(history: &History<'a>, resource: u32) -> Holder<'a>
    ensures { holder_of result ≡ (world (past history.now)).owner resource }
{
    match history.owner(resource) {
        Some(Owned::Family(family)) => Holder::Family(family),
        Some(Owned::Released(release)) => Holder::Released(release.family, release.element),
        None => Holder::Nobody,
    }
}

/// The last of some points that changed the owner of a resource.
fn last_owned<'a>(points: &[Point<'a>], resource: u32) -> Option<Point<'a>>
    ensures { option_map point_of result ≡ owned_since (past_of points.now) resource }
{
    let mut since = None;
    let mut is_exclusive = false;
    for point in points {
        if takes(is_exclusive, point, resource) {
            since = Some(*point);
        }
        is_exclusive = exclusive_after(is_exclusive, point, resource);
    }
    since
}

/// Whether one family at a time owns a resource, after a point more.
fn exclusive_after(before: bool, point: &Point<'_>, resource: u32) -> bool
    ensures { (past : Past) → before ≡ is_exclusive past resource → result ≡ is_exclusive (point_of point.now ∷ past) resource }
{
    match point.action {
        Action::Host(entry) => {
            if entry.made_id() == Some(resource) {
                makes_exclusive(entry)
            } else {
                before
            }
        }
        _ => before,
    }
}

/// Whether an entry makes a resource that one family at a time owns.
fn makes_exclusive(entry: &Entry) -> bool
    ensures { result ≡ holds (resource_in entry.now) (λ r. is_exclusive_mode r.sharing) }
{
    match entry {
        Entry::Buffer { info, .. } => is_exclusive_mode(info.sharing),
        Entry::Image { info, .. } => is_exclusive_mode(info.sharing),
        _ => false,
    }
}

fn is_exclusive_mode(sharing: Sharing) -> bool
    ensures { result ≡ is_exclusive_mode sharing }
{
    match sharing {
        Sharing::Exclusive => true,
        Sharing::Concurrent => false,
    }
}

/// Whether a point changes the owner of a resource.
fn takes(is_exclusive: bool, point: &Point<'_>, resource: u32) -> bool
    ensures { result ≡ takes is_exclusive resource (point_of point.now) }
{
    match point.action {
        Action::Run(Cmd::Barrier { elements }) => {
            takes_some(is_exclusive, point.queue, elements.as_slice(), resource)
        }
        Action::Run(command) => is_exclusive && is_used(command, resource),
        _ => false,
    }
}

/// Whether a clear or copy command uses a resource.
fn is_used(command: &Cmd, resource: u32) -> bool
    ensures { result ≡ among resource (ownership.uses command.now) }
{
    match command {
        Cmd::Fill { buffer, .. } => resource == *buffer,
        Cmd::Update { buffer, .. } => resource == *buffer,
        Cmd::Copy {
            source,
            destination,
            ..
        } => resource == *source || resource == *destination,
        Cmd::Clear { image, .. } => resource == *image,
        Cmd::CopyIn { buffer, image, .. } => resource == *buffer || resource == *image,
        Cmd::CopyOut { image, buffer, .. } => resource == *image || resource == *buffer,
        Cmd::CopyImage {
            source,
            destination,
            ..
        } => resource == *source || resource == *destination,
        Cmd::Barrier { .. } => false,
        Cmd::Set { .. } => false,
        Cmd::Await { .. } => false,
    }
}

/// Whether one of some elements on a queue changes the owner of a resource.
pub fn takes_some(is_exclusive: bool, queue: u32, elements: &[Element], resource: u32) -> bool
    ensures { result ≡ list_any (takes_by is_exclusive queue resource) elements.now }
{
    elements
        .iter()
        .any(|element| takes_by(is_exclusive, queue, element, resource))
}

/// Whether an element on a queue changes the owner of a resource.
fn takes_by(is_exclusive: bool, queue: u32, element: &Element, resource: u32) -> bool
    ensures { result ≡ takes_by is_exclusive queue resource element.now }
{
    if named_by(element) != Some(resource) {
        return false;
    }
    match half_of(queue, element) {
        Transfer::Stays => is_exclusive && is_transition_of(element),
        Transfer::Release => true,
        Transfer::Acquire => true,
        Transfer::Neither => false,
    }
}

/// What an element on a queue does with ownership.
fn half_of(queue: u32, element: &Element) -> Transfer
    ensures { transfer_of result ≡ ownership.transfer_on queue element.now }
{
    match element {
        Element::Memory(_) => Transfer::Stays,
        Element::Buffer(on_buffer) => Transfer::of(family_of(queue), on_buffer.families),
        Element::Image(on_image) => Transfer::of(family_of(queue), on_image.families),
    }
}

/// The resource that an element names.
fn named_by(element: &Element) -> Option<u32>
    ensures { result ≡ ownership.named_by element.now }
{
    match element {
        Element::Memory(_) => None,
        Element::Buffer(on_buffer) => Some(on_buffer.buffer),
        Element::Image(on_image) => Some(on_image.image),
    }
}

fn is_transition_of(element: &Element) -> bool
    ensures { result ≡ is_transition_of element.now }
{
    match element {
        Element::Image(on_image) => is_transition(on_image),
        _ => false,
    }
}
