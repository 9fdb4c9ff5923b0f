ghost use Rattle.std.specs.Prelude.{◌≡◌, ◌⊎◌, ◌∷◌, ◌++◌, ◌<◌, [], ℕ, Bool, List, IfOk, OnOk, IsTrue, is_some, Some, length, map, vec_len};
ghost use Rattle.vk_model.specs.Sync.Node.{Node};
ghost use Rattle.vk_order.specs.declared.acts.Row.{Row as AnyRow};
ghost use Rattle.vk_order.specs.declared.lines.Line.TheVariants.{Commands as OfCommands};
ghost use Rattle.vk_order.specs.NodeViews.{act_of};
ghost use Rattle.vk_order.specs.Lines.{class_of, class_on};
ghost use Rattle.vk_order.specs.Inner.Leads.{line_leads};
ghost use Rattle.vk_order.specs.Inner.Places.{index_in};
ghost use Rattle.vk_order.specs.Inner.Fronts.{IsFront, IsOwnFront};
ghost use Rattle.vk_order.specs.Inner.Tallies.{lines_of, IsTallied, IsComing};

use crate::act::Act;
use crate::acts::Row;
use crate::fronts::Front;
use crate::lines::Line;
use crate::places::{is_commands, is_elements};
use std::alloc::{AllocError, Global};

/// What is known of a line.
#[derive(Drop)]
pub struct LineTally {
    /// The line.
    pub line: Line,
    /// How many nodes it has.
    pub count: u32,
    /// What comes after all of them.
    pub front: Front,
}

/// The index of a line.
#[inline(always)]
pub fn line_index(tallies: &[LineTally], line: Line) -> Option<usize>
    ensures { result ≡ index_in (lines_of tallies.now) line }
{
    let mut owns = tallies.iter().map(|tally| tally.line);
    match line {
        Line::Commands(queue) => commands_index(tallies, queue),
        Line::Elements(queue, transfer, host) => {
            owns.position(|own| is_elements(own, queue, transfer, host))
        }
        _ => owns.position(|own| own.is(line)),
    }
}

/// The index of the commands of a queue.
#[inline(always)]
fn commands_index(tallies: &[LineTally], queue: u32) -> Option<usize>
    ensures { result ≡ index_in (lines_of tallies.now) (OfCommands queue) }
{
    let mut owns = tallies.iter().map(|tally| tally.line);
    owns.position(|own| is_commands(own, queue))
}

/// The index of the line of an act on a queue. Most acts are commands, of which the line is known
/// at once.
pub fn index_of_act(tallies: &[LineTally], queue: u32, act: &Act<'_>) -> Option<usize>
    ensures { result ≡ index_in (lines_of tallies.now) (class_on queue (act_of act.now)) }
{
    match act {
        Act::Runs(_) => commands_index(tallies, queue),
        _ => line_index(tallies, Line::of(queue, act)),
    }
}

/// The lines.
pub fn lines_copied(alloc: Global, tallies: &[LineTally]) -> Result<Vec<Line>, AllocError>
    ensures { IfOk result (λ lines. lines.items ≡ lines_of tallies.now) }
{
    let mut lines = Vec::with_capacity(alloc, tallies.len())?;
    for tally in tallies {
        lines.push(tally.line)?;
    }
    Ok(lines)
}

/// Makes a front what comes after all nodes of the lines that lead to a row, whatever it was.
pub fn join_of(front: &mut Front, tallies: &[LineTally], row: &Row<'_>) -> Result<(), AllocError>
    ensures { OnOk result ((ns : List Node) → IsTallied ns tallies.now → IsFront ns (lines_of tallies.now) (λ k. line_leads row.now.point.queue (act_of row.now.act) (class_of k)) front.new) }
{
    let queue = row.point.queue;
    let act = row.act;
    let mut is_first = true;
    for tally in tallies {
        if tally.line.leads(queue, &act) {
            front.take_in(is_first, &tally.front)?;
            is_first = false;
        }
    }
    if is_first {
        front.empty();
    }
    Ok(())
}

/// Lists a line, if it isn't yet. Answers its index.
pub fn list_line(
    alloc: Global,
    tallies: &mut Vec<LineTally>,
    line: Line,
) -> Result<usize, AllocError>
    ensures listed { IfOk result (λ at. index_in (lines_of tallies.new.items) line ≡ Some at) }
    ensures grown { OnOk result ((lines_of tallies.new.items ≡ lines_of tallies.old.items) ⊎ (lines_of tallies.new.items ≡ lines_of tallies.old.items ++ line ∷ [])) }
    ensures kept { OnOk result ((ns : List Node) → IsTallied ns tallies.old.items → IsTallied ns tallies.new.items) }
{
    if let Some(at) = line_index(tallies.as_slice(), line) {
        return Ok(at);
    }
    let at = tallies.len();
    tallies.push(LineTally {
        line,
        count: 0,
        front: Front::new(alloc),
    })?;
    Ok(at)
}

/// Counts a row that comes next, after which this comes, at the index of its line.
pub fn tally(tallies: &mut Vec<LineTally>, at: usize, own: &mut Front) -> Result<(), AllocError>
    requires { at < vec_len tallies.old }
    ensures lines { OnOk result (lines_of tallies.new.items ≡ lines_of tallies.old.items) }
    ensures kept { OnOk result ((ns : List Node) (n : Node) (row : AnyRow) (known : Front) → index_in (lines_of tallies.old.items) (class_on row.point.queue (act_of row.act)) ≡ Some at → IsComing ns (lines_of tallies.old.items) n row known → IsTallied ns tallies.old.items → IsOwnFront ns (lines_of tallies.old.items) n own.old → IsTallied (n ∷ ns) tallies.new.items) }
{
    let tally = &mut tallies[at];
    tally.front.grow(own)?;
    let count = if tally.line.is_of_sets() {
        tally.count
    } else {
        tally.count.saturating_add(1)
    };
    tally.count = count;
    Ok(())
}
