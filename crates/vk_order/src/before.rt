ghost use Rattle.std.specs.Prelude.{◌≡◌, ◌<◌, ◌==◌, ◌&&◌, ◌||◌, [], ℕ, List, Some, length, slice_get};
ghost use Rattle.vk_model.specs.Sync.Before.{before};
ghost use Rattle.vk_order.specs.declared.acts.Row.{Row as AnyRow};
ghost use Rattle.vk_order.specs.NodeViews.{act_of, node_of, nodes_after};
ghost use Rattle.vk_order.specs.Lines.{line_of};
ghost use Rattle.vk_order.specs.Edges.{unsignaled};
ghost use Rattle.vk_order.specs.Inner.Kept.{IsStamped, IsSet};

use crate::acts::Row;
use crate::clocks::{Stamp, count_at};
use crate::lines::{Line, index_among};

/// Whether one node is before another.
pub fn is_before(
    rows: &[Row<'_>],
    stamps: &[Stamp],
    lines: &[Line],
    first: usize,
    second: usize,
) -> bool
    requires lengths { length stamps.now ≡ length rows.now }
    requires first { first < length rows.now }
    requires second { second < length rows.now }
    ensures { (q r : AnyRow) → slice_get rows.now first ≡ Some q → slice_get rows.now second ≡ Some r → IsStamped rows.now stamps.now lines.now
        → result ≡ before (nodes_after [] rows.now) (node_of first q) (node_of second r) }
{
    let row = rows[first];
    let line = Line::of(row.point.queue, &row.act);
    if line.is_of_sets() {
        is_before_by_links(rows, stamps, lines, first, second)
    } else {
        is_counted(stamps, lines, line, first, second)
    }
}

/// Whether the clock of a node counts another one, which is of this line.
pub fn is_counted(stamps: &[Stamp], lines: &[Line], line: Line, first: usize, second: usize) -> bool
    requires first { first < length stamps.now }
    requires second { second < length stamps.now }
    ensures { (rows : List AnyRow) (q r : AnyRow) → slice_get rows first ≡ Some q → slice_get rows second ≡ Some r → line_of (node_of first q) ≡ Some line → IsStamped rows stamps.now lines.now
        → result ≡ before (nodes_after [] rows) (node_of first q) (node_of second r) }
{
    match index_among(lines, line) {
        Some(at) => stamps[first].place < count_at(stamps[second].clock.as_slice(), at),
        None => false,
    }
}

/// The same of an element of a set, by the nodes to which it leads.
fn is_before_by_links(
    rows: &[Row<'_>],
    stamps: &[Stamp],
    lines: &[Line],
    first: usize,
    second: usize,
) -> bool
    requires lengths { length stamps.now ≡ length rows.now }
    requires first { first < length rows.now }
    requires second { second < length rows.now }
    ensures { (q r : AnyRow) → slice_get rows.now first ≡ Some q → slice_get rows.now second ≡ Some r → IsSet (act_of q.act) → IsStamped rows.now stamps.now lines.now
        → result ≡ before (nodes_after [] rows.now) (node_of first q) (node_of second r) }
{
    for middle in first + 1..second + 1 {
        if is_step(rows, stamps, lines, first, middle, second) {
            return true;
        }
    }
    false
}

/// Whether an element of a set leads by one edge to a node that is the second, or before it.
fn is_step(
    rows: &[Row<'_>],
    stamps: &[Stamp],
    lines: &[Line],
    first: usize,
    middle: usize,
    second: usize,
) -> bool
    requires lengths { length stamps.now ≡ length rows.now }
    requires first { first < length rows.now }
    requires middle { middle < length rows.now }
    requires second { second < length rows.now }
    ensures { (q x r : AnyRow) → slice_get rows.now first ≡ Some q → slice_get rows.now middle ≡ Some x → slice_get rows.now second ≡ Some r → IsSet (act_of q.act) → IsStamped rows.now stamps.now lines.now
        → result ≡ (unsignaled (node_of first q) (node_of middle x) && (middle == second || before (nodes_after [] rows.now) (node_of middle x) (node_of second r))) }
{
    let row = rows[middle];
    let leads = rows[first].leads_to(&row);
    if !leads {
        return false;
    }
    if middle == second {
        return true;
    }
    let line = Line::of(row.point.queue, &row.act);
    is_counted(stamps, lines, line, middle, second)
}
