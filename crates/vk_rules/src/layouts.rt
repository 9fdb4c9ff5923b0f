ghost use Rattle.std.specs.Prelude.{◌≡◌, ◌++◌, List, map, length, IfSome, Some, is_some};
ghost use Rattle.std.specs.List.{list_any};
ghost use Rattle.vk_model.specs.World.Effect.{world};
ghost use Rattle.vk_model.specs.Rules.Layouts as layouts;
ghost use Rattle.vk_model.specs.Rules.Layouts.{Named};
ghost use Rattle.vk_model.specs.Trace.PointViews.{action_of, point_of};
ghost use Rattle.vk_history.specs.PointViews.{past};
ghost use Rattle.vk_rules.specs.Layouts.{IsWrongLayout, IsWrongLayoutBy, IsWrongPart, named_of};
ghost use Rattle.vk_rules.specs.Inner.Layouts.{IsWrongOne, cleared_part, region_part, source_part, destination_part};

use crate::transitions::{Transition, bad_transition_of};
use vk_history::History;
use vk_model::{Action, BufferImageCopy, Cmd, ImageCopy, Layout, Point, SubresourceRange};

/// Subresources of an image that a command names in a layout.
#[derive(Clone, Copy)]
pub struct NamedPart {
    /// Which of the parts that the command names it is, those that it reads first.
    pub index: usize,
    /// The id of the image.
    pub image: u32,
    /// The number of the layout.
    pub layout: u32,
    /// The levels and layers.
    pub range: SubresourceRange,
    /// Whether the command writes them; else it reads them.
    pub is_written: bool,
}

/// LAYOUT: what is in a wrong layout.
#[derive(Clone, Copy)]
pub enum WrongLayout {
    /// A part whose layout isn't allowed for what the command does with it.
    Unallowed(NamedPart),
    /// A part of which some is in another layout.
    Other(NamedPart),
    /// A transition to UNDEFINED, or from or to a layout that isn't known.
    Transition(Transition),
}

/// LAYOUT: a layout that isn't allowed for its use or isn't current, or a transition between layouts
/// that it can't have.
pub fn breaks_layout(history: &History<'_>, point: &Point<'_>) -> bool
    ensures { result ≡ layouts.breaks_layout (past history.now) (point_of point.now) }
{
    layout_of(history, point).is_some()
}

/// LAYOUT: the first part or transition of a point whose layout is wrong.
pub fn layout_of(history: &History<'_>, point: &Point<'_>) -> Option<WrongLayout>
    ensures broken { is_some result ≡ layouts.breaks_layout (past history.now) (point_of point.now) }
    ensures reported { IfSome result (IsWrongLayout (past history.now) (action_of point.now.action)) }
{
    match point.action {
        Action::Run(command) => of_command(history, command),
        _ => None,
    }
}

fn of_command(history: &History<'_>, command: &Cmd) -> Option<WrongLayout>
    ensures broken { is_some result ≡ layouts.bad_layout (world (past history.now)) command.now }
    ensures reported { IfSome result (IsWrongLayoutBy (world (past history.now)) command.now) }
{
    match of_parts(history, command) {
        Some(found) => Some(found),
        None => {
            let transition = bad_transition_of(command)?;
            Some(WrongLayout::Transition(transition))
        }
    }
}

/// The first part of a command whose layout is wrong.
#[tactic(auto, using(vk_model::proofs::Lists::Members::any_map, crate::proofs::PartLemmas::any_of_two))]
fn of_parts(history: &History<'_>, command: &Cmd) -> Option<WrongLayout>
    ensures broken { is_some result ≡ list_any (layouts.bad_named (world (past history.now))) (layouts.layouts_named command.now) }
    ensures reported { IfSome result (IsWrongPart (world (past history.now)) (layouts.layouts_named command.now)) }
{
    match command {
        Cmd::Clear {
            image,
            layout,
            ranges,
            ..
        } => of_ranges(history, *image, layout.code(), ranges.as_slice()),
        Cmd::CopyIn {
            image,
            layout,
            regions,
            ..
        } => of_regions(history, *image, layout.code(), true, regions.as_slice()),
        Cmd::CopyOut {
            image,
            layout,
            regions,
            ..
        } => of_regions(history, *image, layout.code(), false, regions.as_slice()),
        Cmd::CopyImage {
            source,
            source_layout,
            destination,
            destination_layout,
            regions,
        } => match of_sources(history, *source, source_layout.code(), regions.as_slice()) {
            Some(found) => Some(found),
            None => of_destinations(
                history,
                *destination,
                destination_layout.code(),
                regions.as_slice(),
            ),
        },
        _ => None,
    }
}

/// The first range of a clear whose layout is wrong.
fn of_ranges(
    history: &History<'_>,
    image: u32,
    layout: u32,
    ranges: &[SubresourceRange],
) -> Option<WrongLayout>
    ensures broken { is_some result ≡ list_any (λ r. layouts.bad_named (world (past history.now)) (cleared_part image layout r)) ranges.now }
    ensures reported { IfSome result (IsWrongPart (world (past history.now)) (map (cleared_part image layout) ranges.now)) }
{
    for (index, range) in ranges.iter().enumerate() {
        let part = NamedPart {
            index,
            image,
            layout,
            range: *range,
            is_written: true,
        };
        if let Some(found) = of_part(history, part) {
            return Some(found);
        }
    }
    None
}

/// The first region of a copy between a buffer and an image whose layout is wrong.
fn of_regions(
    history: &History<'_>,
    image: u32,
    layout: u32,
    is_written: bool,
    regions: &[BufferImageCopy],
) -> Option<WrongLayout>
    ensures broken { is_some result ≡ list_any (λ g. layouts.bad_named (world (past history.now)) (region_part image layout is_written g)) regions.now }
    ensures reported { IfSome result (IsWrongPart (world (past history.now)) (map (region_part image layout is_written) regions.now)) }
{
    for (index, region) in regions.iter().enumerate() {
        let part = NamedPart {
            index,
            image,
            layout,
            range: layers_of(region.level, region.first_layer, region.layers),
            is_written,
        };
        if let Some(found) = of_part(history, part) {
            return Some(found);
        }
    }
    None
}

/// The first region of an image copy that reads what is in a wrong layout.
fn of_sources(
    history: &History<'_>,
    image: u32,
    layout: u32,
    regions: &[ImageCopy],
) -> Option<WrongLayout>
    ensures broken { is_some result ≡ list_any (λ g. layouts.bad_named (world (past history.now)) (source_part image layout g)) regions.now }
    ensures reported { (rest : List Named) → IfSome result (IsWrongPart (world (past history.now)) (map (source_part image layout) regions.now ++ rest)) }
{
    for (index, region) in regions.iter().enumerate() {
        let level = region.source_level;
        let part = NamedPart {
            index,
            image,
            layout,
            range: layers_of(level, region.source_first_layer, region.layers),
            is_written: false,
        };
        if let Some(found) = of_part(history, part) {
            return Some(found);
        }
    }
    None
}

/// The first region of an image copy that writes what is in a wrong layout.
fn of_destinations(
    history: &History<'_>,
    image: u32,
    layout: u32,
    regions: &[ImageCopy],
) -> Option<WrongLayout>
    ensures broken { is_some result ≡ list_any (λ g. layouts.bad_named (world (past history.now)) (destination_part image layout g)) regions.now }
    ensures reported { (read : List Named) → length read ≡ length regions.now → IfSome result (IsWrongPart (world (past history.now)) (read ++ map (destination_part image layout) regions.now)) }
{
    for (index, region) in regions.iter().enumerate() {
        let level = region.destination_level;
        let part = NamedPart {
            index: regions.len() + index,
            image,
            layout,
            range: layers_of(level, region.destination_first_layer, region.layers),
            is_written: true,
        };
        if let Some(found) = of_part(history, part) {
            return Some(found);
        }
    }
    None
}

/// Layers of one level.
fn layers_of(level: u32, first_layer: u32, layers: u32) -> SubresourceRange
    ensures { result ≡ record {
      first_level = level;
      levels = 1;
      first_layer = first_layer;
      layers = layers;
    } }
{
    SubresourceRange {
        first_level: level,
        levels: 1,
        first_layer,
        layers,
    }
}

/// A part whose layout isn't allowed for its use or isn't current.
fn of_part(history: &History<'_>, part: NamedPart) -> Option<WrongLayout>
    ensures broken { is_some result ≡ layouts.bad_named (world (past history.now)) (named_of part) }
    ensures reported { IfSome result (IsWrongOne (world (past history.now)) part) }
{
    let layout = Layout::new(part.layout);
    if !is_allowed(part.is_written, layout) {
        Some(WrongLayout::Unallowed(part))
    } else if history.is_in(part.image, &part.range, layout) {
        None
    } else {
        Some(WrongLayout::Other(part))
    }
}

fn is_allowed(is_written: bool, layout: Layout) -> bool
    ensures { result ≡ layouts.is_allowed is_written layout }
{
    let optimal = if is_written {
        Layout::TRANSFER_DST_OPTIMAL
    } else {
        Layout::TRANSFER_SRC_OPTIMAL
    };
    layout == Layout::GENERAL || layout == optimal
}
