ghost use Rattle.std.specs.Prelude.{◌≡◌, ◌++◌, [], List, IfOk, OnOk, length};
ghost use Rattle.vk_order.specs.declared.acts.Row.{Row as AnyRow};
ghost use Rattle.vk_order.specs.declared.clocks.Stamp.{Stamp as AnyStamp};
ghost use Rattle.vk_order.specs.NodeViews.{nodes_after};
ghost use Rattle.vk_order.specs.Inner.Kept.{IsStamped};
ghost use Rattle.vk_order.specs.Inner.Tallies.{lines_of, CanFollow, AreOnLines, AreFronts};
ghost use Rattle.vk_order.specs.Frontiers.{IsFrontier};

use crate::acts::Row;
use crate::clocks::Stamp;
use crate::frontier::Frontier;
use crate::fronts::Front;
use crate::lines::Line;
use std::alloc::{AllocError, Global};

/// Adds rows that come next. Answers their stamps.
pub fn stamped(
    alloc: Global,
    frontier: &mut Frontier,
    rows: &[Row<'_>],
) -> Result<Vec<Stamp>, AllocError>
    ensures { IfOk result (λ more. (old : List AnyRow) (stamps : List AnyStamp) → IsStamped old stamps (lines_of frontier.old.tallies.items) → IsFrontier frontier.old (nodes_after [] old) → CanFollow (nodes_after [] old) rows.now
        → IsStamped (old ++ rows.now) (stamps ++ more.items) (lines_of frontier.new.tallies.items) × IsFrontier frontier.new (nodes_after [] (old ++ rows.now))) }
{
    frontier.list(rows)?;
    let fronts = frontier.fronts_of(rows)?;
    let more = stamps_of(alloc, frontier, rows, fronts.as_slice())?;
    Ok(more)
}

/// Adds rows that come next, whose lines are listed, with what each comes after.
fn stamps_of(
    alloc: Global,
    frontier: &mut Frontier,
    rows: &[Row<'_>],
    fronts: &[Front],
) -> Result<Vec<Stamp>, AllocError>
    requires lengths { length fronts.now ≡ length rows.now }
    requires listed { AreOnLines (lines_of frontier.old.tallies.items) rows.now }
    ensures { IfOk result (λ more. (old : List AnyRow) (stamps : List AnyStamp) → IsStamped old stamps (lines_of frontier.old.tallies.items) → IsFrontier frontier.old (nodes_after [] old) → CanFollow (nodes_after [] old) rows.now
        → AreFronts (nodes_after [] old) (lines_of frontier.old.tallies.items) rows.now fronts.now
        → IsStamped (old ++ rows.now) (stamps ++ more.items) (lines_of frontier.new.tallies.items) × IsFrontier frontier.new (nodes_after [] (old ++ rows.now))) }
{
    let mut more = Vec::new(alloc);
    for (index, row) in rows.iter().enumerate() {
        let place = frontier.next_place(Line::of(row.point.queue, &row.act));
        let known = &fronts[index];
        let clock = known.clock(alloc)?;
        let front = known.copied(alloc)?;
        frontier.add(row, front)?;
        more.push(Stamp { place, clock })?;
    }
    Ok(more)
}
