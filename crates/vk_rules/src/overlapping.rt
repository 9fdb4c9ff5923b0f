ghost use Rattle.std.specs.Prelude.{◌≡◌, IfOk};
ghost use Rattle.vk_model.specs.Rules.Ranges as ranges;
ghost use Rattle.vk_model.specs.Trace.PointViews.{point_of};
ghost use Rattle.vk_history.specs.PointViews.{past};
ghost use Rattle.vk_rules.specs.Inner.Overlapping.{rows_overlap};

use crate::twice::some_ids_meet;
use std::alloc::{AllocError, Global};
use vk_history::History;
use vk_model::{Action, BufferImageCopy, Cmd, Entry, Point};
use vk_overlaps::{
    copies_overlap, image_copies_overlap, ranges_overlap, regions_overlap, rows_overlap,
    transitions_overlap,
};

/// OVERLAP: what a region of a command writes, with what another writes or any reads; two transitions of
/// a subresource; an id twice in the lists of an end of a pass.
pub fn breaks_overlap(history: &History<'_>, point: &Point<'_>) -> Result<bool, AllocError>
    ensures { IfOk result (λ broken. broken ≡ ranges.breaks_overlap (past history.now) (point_of point.now)) }
{
    match point.action {
        Action::Host(entry) => lists_twice(history.alloc(), entry),
        Action::Run(command) => overlaps(history, command),
        _ => Ok(false),
    }
}

fn lists_twice(alloc: Global, entry: &Entry) -> Result<bool, AllocError>
    ensures { IfOk result (λ twice. twice ≡ ranges.lists_twice entry.now) }
{
    match entry {
        Entry::EndPass {
            ignored,
            destroyed,
            ..
        } => some_ids_meet(alloc, ignored.as_slice(), destroyed.as_slice()),
        _ => Ok(false),
    }
}

/// Whether a command's areas or transitions overlap. The only error is want of memory.
fn overlaps(history: &History<'_>, command: &Cmd) -> Result<bool, AllocError>
    ensures { IfOk result (λ found. found ≡ ranges.command_overlaps (past history.now) command.now) }
{
    let alloc = history.alloc();
    match command {
        Cmd::Copy {
            source,
            destination,
            regions,
        } => copies_overlap(alloc, *source, *destination, regions.as_slice()),
        Cmd::Clear { ranges, .. } => ranges_overlap(alloc, ranges.as_slice()),
        Cmd::CopyIn { regions, .. } => regions_overlap(alloc, regions.as_slice()),
        Cmd::CopyOut { image, regions, .. } => image_rows_overlap(
            history,
            *image,
            regions.as_slice(),
        ),
        Cmd::CopyImage {
            source,
            destination,
            regions,
            ..
        } => image_copies_overlap(alloc, *source, *destination, regions.as_slice()),
        Cmd::Barrier { elements } => transitions_overlap(alloc, elements.as_slice()),
        _ => Ok(false),
    }
}

fn image_rows_overlap(
    history: &History<'_>,
    image: u32,
    regions: &[BufferImageCopy],
) -> Result<bool, AllocError>
    ensures { IfOk result (λ found. found ≡ rows_overlap (past history.now) image regions.now) }
{
    match history.image(image) {
        Some(info) => rows_overlap(history.alloc(), regions, info.format),
        None => Ok(false),
    }
}
