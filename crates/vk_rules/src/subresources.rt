ghost use Rattle.std.specs.Prelude.{◌≡◌, ◌||◌, ℕ, IfSome, is_some};
ghost use Rattle.std.specs.List.{list_any};
ghost use Rattle.vk_model.specs.declared.command.Cmd.TheVariants as cmd;
ghost use Rattle.vk_model.specs.Basics.{holds};
ghost use Rattle.vk_model.specs.Trace.Objects as objects;
ghost use Rattle.vk_model.specs.World.Areas.{region_box, source_box, destination_box};
ghost use Rattle.vk_model.specs.Rules.Ranges as rules;
ghost use Rattle.vk_model.specs.Trace.PointViews.{action_of, point_of};
ghost use Rattle.vk_history.specs.PointViews.{past};
ghost use Rattle.vk_rules.specs.Subresources.{IsSubresource, IsOutside, IsOutsideOf, ranges_at, regions_at, copies_at};
ghost use Rattle.vk_rules.specs.Inner.Subresources.{IsSpanIn, IsElementOutside};

use crate::boxes::box_outside;
use crate::items::Item;
use crate::spans::{Outside, range_outside};
use vk_history::History;
use vk_model::{
    Action, BufferImageCopy, Cmd, Element, ImageCopy, ImageInfo, Point, SubresourceRange,
};
use vk_overlaps::{destination_box, region_box, source_box};

/// SUBRESOURCE: levels, layers or texels outside the image, or a count or an extent of 0.
pub fn breaks_subresource(history: &History<'_>, point: &Point<'_>) -> bool
    ensures { result ≡ rules.breaks_subresource (past history.now) (point_of point.now) }
{
    subresource_of(history, point).is_some()
}

/// SUBRESOURCE: which numbers of a point aren't of their image.
pub fn subresource_of(history: &History<'_>, point: &Point<'_>) -> Option<Outside>
    ensures broken { is_some result ≡ rules.breaks_subresource (past history.now) (point_of point.now) }
    ensures reported { IfSome result (IsSubresource (past history.now) (action_of point.now.action)) }
{
    match point.action {
        Action::Run(command) => of_command(history, command),
        _ => None,
    }
}

fn of_command(history: &History<'_>, command: &Cmd) -> Option<Outside>
    ensures broken { is_some result ≡ rules.bad_subresource (past history.now) command.now }
    ensures reported { IfSome result (IsOutside (past history.now) command.now) }
{
    match command {
        Cmd::Clear { image, ranges, .. } => of_clear(history, *image, ranges.as_slice()),
        Cmd::CopyIn { image, regions, .. } => of_regions(history, *image, regions.as_slice()),
        Cmd::CopyOut { image, regions, .. } => of_regions(history, *image, regions.as_slice()),
        Cmd::CopyImage {
            source,
            destination,
            regions,
            ..
        } => of_copy(history, *source, *destination, regions.as_slice()),
        Cmd::Barrier { elements } => of_elements(history, elements.as_slice()),
        Cmd::Copy { .. } => None,
        Cmd::Fill { .. } => None,
        Cmd::Update { .. } => None,
        Cmd::Set { .. } => None,
        Cmd::Await { .. } => None,
    }
}

fn of_clear(history: &History<'_>, image_id: u32, ranges: &[SubresourceRange]) -> Option<Outside>
    ensures broken { is_some result ≡ holds (objects.image (past history.now) image_id) (λ m. list_any (rules.bad_range m) ranges.now) }
    ensures reported { IfSome result (IsOutsideOf (past history.now) (ranges_at image_id ranges.now)) }
{
    let info = history.image(image_id)?;
    outside_ranges(info, image_id, ranges)
}

/// The first range that isn't of an image.
fn outside_ranges(info: &ImageInfo, image: u32, ranges: &[SubresourceRange]) -> Option<Outside>
    ensures broken { is_some result ≡ list_any (rules.bad_range info.now) ranges.now }
    ensures reported { IfSome result (IsSpanIn info.now image (ranges_at image ranges.now)) }
{
    for (index, range) in ranges.iter().enumerate() {
        if let Some(outside) = range_outside(info, image, Item::Range(index), range) {
            return Some(outside);
        }
    }
    None
}

fn of_regions(history: &History<'_>, image_id: u32, regions: &[BufferImageCopy]) -> Option<Outside>
    ensures broken { is_some result ≡ holds (objects.image (past history.now) image_id) (λ m. list_any (λ g. rules.bad_box m (region_box g)) regions.now) }
    ensures reported { IfSome result (IsOutsideOf (past history.now) (regions_at image_id regions.now)) }
{
    let info = history.image(image_id)?;
    outside_regions(info, image_id, regions)
}

/// The first region of a copy between a buffer and an image that isn't of the image.
fn outside_regions(info: &ImageInfo, image: u32, regions: &[BufferImageCopy]) -> Option<Outside>
    ensures broken { is_some result ≡ list_any (λ g. rules.bad_box info.now (region_box g)) regions.now }
    ensures reported { IfSome result (IsSpanIn info.now image (regions_at image regions.now)) }
{
    for (index, region) in regions.iter().enumerate() {
        let item = Item::Region(index);
        if let Some(outside) = box_outside(info, image, item, region_box(region)) {
            return Some(outside);
        }
    }
    None
}

fn of_copy(
    history: &History<'_>,
    source: u32,
    destination: u32,
    regions: &[ImageCopy],
) -> Option<Outside>
    ensures broken { is_some result ≡ (holds (objects.image (past history.now) source) (λ m. list_any (λ g. rules.bad_box m (source_box g)) regions.now) || holds (objects.image (past history.now) destination) (λ m. list_any (λ g. rules.bad_box m (destination_box g)) regions.now)) }
    ensures reported { IfSome result (IsOutsideOf (past history.now) (copies_at source destination regions.now)) }
{
    match of_source(history, source, regions) {
        Some(outside) => Some(outside),
        None => of_destination(history, destination, regions),
    }
}

fn of_source(history: &History<'_>, image_id: u32, regions: &[ImageCopy]) -> Option<Outside>
    ensures broken { is_some result ≡ holds (objects.image (past history.now) image_id) (λ m. list_any (λ g. rules.bad_box m (source_box g)) regions.now) }
    ensures reported { IfSome result (λ o. (d : ℕ) → IsOutsideOf (past history.now) (copies_at image_id d regions.now) o) }
{
    let info = history.image(image_id)?;
    outside_sources(info, image_id, regions)
}

/// The first region that reads what isn't of an image.
fn outside_sources(info: &ImageInfo, image: u32, regions: &[ImageCopy]) -> Option<Outside>
    ensures broken { is_some result ≡ list_any (λ g. rules.bad_box info.now (source_box g)) regions.now }
    ensures reported { IfSome result (λ o. (d : ℕ) → IsSpanIn info.now image (copies_at image d regions.now) o) }
{
    for (index, region) in regions.iter().enumerate() {
        let item = Item::Source(index);
        if let Some(outside) = box_outside(info, image, item, source_box(region)) {
            return Some(outside);
        }
    }
    None
}

fn of_destination(history: &History<'_>, image_id: u32, regions: &[ImageCopy]) -> Option<Outside>
    ensures broken { is_some result ≡ holds (objects.image (past history.now) image_id) (λ m. list_any (λ g. rules.bad_box m (destination_box g)) regions.now) }
    ensures reported { IfSome result (λ o. (s : ℕ) → IsOutsideOf (past history.now) (copies_at s image_id regions.now) o) }
{
    let info = history.image(image_id)?;
    outside_destinations(info, image_id, regions)
}

/// The first region that writes what isn't of an image.
fn outside_destinations(info: &ImageInfo, image: u32, regions: &[ImageCopy]) -> Option<Outside>
    ensures broken { is_some result ≡ list_any (λ g. rules.bad_box info.now (destination_box g)) regions.now }
    ensures reported { IfSome result (λ o. (s : ℕ) → IsSpanIn info.now image (copies_at s image regions.now) o) }
{
    for (index, region) in regions.iter().enumerate() {
        let item = Item::Destination(index);
        if let Some(outside) = box_outside(info, image, item, destination_box(region)) {
            return Some(outside);
        }
    }
    None
}

fn of_elements(history: &History<'_>, elements: &[Element]) -> Option<Outside>
    ensures broken { is_some result ≡ list_any (rules.bad_element (past history.now)) elements.now }
    ensures reported { IfSome result (IsOutside (past history.now) (cmd.Barrier elements.now)) }
{
    for (index, element) in elements.iter().enumerate() {
        if let Some(outside) = of_element(history, index, element) {
            return Some(outside);
        }
    }
    None
}

fn of_element(history: &History<'_>, index: usize, element: &Element) -> Option<Outside>
    ensures broken { is_some result ≡ rules.bad_element (past history.now) element.now }
    ensures reported { IfSome result (IsElementOutside (past history.now) index element.now) }
{
    match element {
        Element::Image(on_image) => {
            let info = history.image(on_image.image)?;
            range_outside(info, on_image.image, Item::Element(index), &on_image.range)
        }
        _ => None,
    }
}
