ghost use Rattle.std.specs.Prelude.{◌≡◌, ◌∷◌, ◌+◌, ◌<◌, ◌≤◌, ◌^◌, ℕ, true, List, IfOk, OnOk, Some, length, map};
ghost use Rattle.vk_model.specs.Basics.{holds};
ghost use Rattle.vk_model.specs.Sync.Node.{Node};
ghost use Rattle.vk_order.specs.declared.lines.Line.{Line as AnyLine};
ghost use Rattle.vk_order.specs.NodeViews.{act_of};
ghost use Rattle.vk_order.specs.Lines.{class_of, class_on, same_line, place};
ghost use Rattle.vk_order.specs.Inner.Counts.{shows_of, no_shows, AreAvailable, AreVisible, AreCounted};
ghost use Rattle.vk_order.specs.Inner.Places.{index_in};
ghost use Rattle.vk_order.specs.Inner.Rows.{makes_line_available, IsMerged};
ghost use Rattle.vk_order.specs.Inner.Fronts.{IsOwnFront};
ghost use Rattle.vk_order.specs.Inner.Tallies.{lines_of, IsTallied, IsComing};

use crate::act::Act;
use crate::acts::Row;
use crate::counts::{Counts, Shows, hide, known_at, put_available, put_clock, shows_of};
use crate::fronts::Front;
use crate::lines::Line;
use crate::tallies::{LineTally, line_index};
use std::alloc::{AllocError, Global};
use vk_model::Entry;

/// Makes what comes before a row that comes next what comes after it.
pub fn own_front(
    tallies: &[LineTally],
    row: &Row<'_>,
    at: usize,
    front: &mut Front,
) -> Result<(), AllocError>
    requires { index_in (lines_of tallies.now) (class_on row.now.point.queue (act_of row.now.act)) ≡ Some at }
    ensures { OnOk result ((ns : List Node) (n : Node) → IsComing ns (lines_of tallies.now) n row.now front.old → IsTallied ns tallies.now → IsOwnFront ns (lines_of tallies.now) n front.new) }
{
    count_available(tallies, row, &mut front.counts)?;
    show(tallies, &row.act, &mut front.counts);
    let tally = &tallies[at];
    count_own(&mut front.counts, tally.line, at, tally.count)?;
    Ok(())
}

/// Makes the counts of what is before a node of a line those of what comes after it, from the index
/// of the line and how many nodes of the line came earlier: the node is counted too.
fn count_own(counts: &mut Vec<Counts>, line: Line, at: usize, count: u32) -> Result<(), AllocError>
    requires { at < 2 ^ 63 }
    ensures { OnOk result ((ns : List Node) (ls : List AnyLine) (n : Node) → class_of n ≡ line → index_in ls line ≡ Some at → count ≡ place ns line n.number → count + 1 < 2 ^ 32 → length counts.old.items ≤ length ls → AreCounted ns ls n counts.old.items counts.new.items) }
{
    if line.is_of_sets() {
        return Ok(());
    }
    put_clock(counts, at, count.saturating_add(1))?;
    Ok(())
}

/// Counts what is available after a row that comes next.
fn count_available(
    tallies: &[LineTally],
    row: &Row<'_>,
    counts: &mut Vec<Counts>,
) -> Result<(), AllocError>
    ensures { OnOk result ((ns : List Node) → IsTallied ns tallies.now → length counts.old.items ≤ length tallies.now
        → AreAvailable ns (lines_of tallies.now) row.now.point.queue (act_of row.now.act) counts.old.items counts.new.items) }
{
    let Some(line) = available_line(row) else {
        return Ok(());
    };
    let Some(at) = line_index(tallies, line) else {
        return Ok(());
    };
    put_available(counts, at, tallies[at].count)?;
    Ok(())
}

/// The line of which a row makes the writes of all nodes so far available, if there is one.
fn available_line(row: &Row<'_>) -> Option<Line>
    ensures { (l : AnyLine) → holds result (same_line l) ≡ makes_line_available row.now.point.queue (act_of row.now.act) l }
{
    if row.is_submit() {
        return Some(Line::Host);
    }
    if row.act.makes_queue_available() {
        return Some(Line::Commands(row.point.queue));
    }
    None
}

/// Counts what an act makes visible. Most acts are commands, which make nothing visible.
fn show(tallies: &[LineTally], act: &Act<'_>, counts: &mut Vec<Counts>)
    ensures { AreVisible (lines_of tallies.now) (shows_of (act_of act.now)) counts.old.items counts.new.items }
{
    if act.shows_nothing() {
        hide(counts);
        return;
    }
    show_all(tallies, shows_of(act), counts);
}

/// Counts what is made visible.
fn show_all(tallies: &[LineTally], shows: Shows, counts: &mut Vec<Counts>)
    ensures { AreVisible (lines_of tallies.now) shows counts.old.items counts.new.items }
{
    for (index, tally) in tallies.iter().enumerate() {
        if index >= counts.len() {
            return;
        }
        counts[index] = counts[index].made_visible(tally.line, shows);
    }
}

impl Act<'_> {
    /// Whether it is an act of those that make nothing visible.
    fn shows_nothing(&self) -> bool
        ensures { result ≡ true → shows_of (act_of self.now) ≡ no_shows }
    {
        match self {
            Act::Runs(_) | Act::Signals(_) => true,
            Act::Hosts(entry) => !matches!(entry, Entry::Submit { .. }),
            _ => false,
        }
    }
}

/// Whose writes are known at a node with these counts, line by line.
pub fn heard(
    alloc: Global,
    tallies: &[LineTally],
    counts: &[Counts],
) -> Result<Vec<u32>, AllocError>
    ensures { IfOk result (λ row. IsMerged (lines_of tallies.now) (map (λ c. c.clock) counts.now) (map (λ c. c.available) counts.now) row.items) }
{
    let mut row = Vec::with_capacity(alloc, tallies.len())?;
    for (index, tally) in tallies.iter().enumerate() {
        row.push(known_at(counts, index, tally.line))?;
    }
    Ok(row)
}
