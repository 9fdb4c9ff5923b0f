ghost use Rattle.std.specs.Prelude.{◌≡◌, IfOk, IfSome, is_some};
ghost use Rattle.vk_model.specs.World.Areas as areas;
ghost use Rattle.vk_model.specs.Rules.Ranges as rules;
ghost use Rattle.vk_model.specs.Trace.PointViews.{action_of, point_of};
ghost use Rattle.vk_history.specs.PointViews.{past};
ghost use Rattle.vk_findings.specs.Parts.{IsOverlap, IsOverlapIn};
ghost use Rattle.vk_findings.specs.Overlaps.{IsFound};
ghost use Rattle.vk_findings.specs.Inner.Found.{IsAmong};

use crate::commands::{areas_read, areas_written};
use crate::lists::listed_twice;
use crate::pairs::{Overlap, overlap_among};
use crate::transition_pairs::{elements_of, transitions_overlap};
use std::alloc::{AllocError, Global};
use vk_history::History;
use vk_model::{Action, Cmd, Point};
use vk_rules::breaks_overlap;

/// Which two parts of a point that comes next overlap, where it breaks OVERLAP, and what they have in
/// common. The history is that of the points before it. The only error is want of memory.
#[tactic(auto, unfolding(vk_model::specs::Rules::Table::breaks))]
pub fn overlap_of(
    alloc: Global,
    history: &History<'_>,
    point: &Point<'_>,
) -> Result<Option<Overlap>, AllocError>
    ensures { IfOk result (IsFound (past history.now) (point_of point.now)) }
{
    if breaks_overlap(history, point)? {
        found_at(alloc, history, point)
    } else {
        Ok(None)
    }
}

/// The two parts. Where nothing overlaps, it compares each part with each: it's to be asked of a point that
/// breaks the rule.
#[tactic(auto, unfolding(vk_model::specs::Rules::Table::breaks))]
fn found_at(
    alloc: Global,
    history: &History<'_>,
    point: &Point<'_>,
) -> Result<Option<Overlap>, AllocError>
    ensures { IfOk result (IsFound (past history.now) (point_of point.now)) }
{
    match of_action(alloc, history, point)? {
        Some(overlap) => Ok(Some(overlap)),
        None => Ok(None),
    }
}

fn of_action(
    alloc: Global,
    history: &History<'_>,
    point: &Point<'_>,
) -> Result<Option<Overlap>, AllocError>
    ensures meet { IfOk result (λ found. is_some found ≡ rules.breaks_overlap (past history.now) (point_of point.now)) }
    ensures reported { IfOk result (λ found. IfSome found (IsOverlap (past history.now) (action_of point.now.action))) }
{
    match point.action {
        Action::Host(entry) => listed_twice(alloc, entry),
        Action::Run(command) => of_command(alloc, history, command),
        _ => Ok(None),
    }
}

fn of_command(
    alloc: Global,
    history: &History<'_>,
    command: &Cmd,
) -> Result<Option<Overlap>, AllocError>
    ensures meet { IfOk result (λ found. is_some found ≡ rules.command_overlaps (past history.now) command.now) }
    ensures reported { IfOk result (λ found. IfSome found (IsOverlapIn (past history.now) command.now)) }
{
    match of_areas(alloc, history, command)? {
        Some(overlap) => Ok(Some(overlap)),
        None => transitions_overlap(alloc, elements_of(command)),
    }
}

fn of_areas(
    alloc: Global,
    history: &History<'_>,
    command: &Cmd,
) -> Result<Option<Overlap>, AllocError>
    ensures meet { IfOk result (λ found. is_some found
        ≡ rules.writes_overlap (areas.areas_written (past history.now) command.now) (areas.areas_read (past history.now) command.now)) }
    ensures reported { IfOk result (λ found. IfSome found
        (IsAmong (areas.areas_written (past history.now) command.now) (areas.areas_read (past history.now) command.now))) }
{
    let written = areas_written(alloc, history, command)?;
    let read = areas_read(alloc, history, command)?;
    overlap_among(alloc, written.as_slice(), read.as_slice())
}
