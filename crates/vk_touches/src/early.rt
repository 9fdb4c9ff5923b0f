ghost use Rattle.vk_order.specs.declared.lines.Line.TheVariants.{Host as OfHost};
ghost use Rattle.vk_touches.specs.Conflicts.{IsEarly, HasEarlyRead, HasEarlyTransition, IsRefused, SaysFollows};
ghost use Rattle.vk_touches.specs.TouchMaps.{with_reads, without_reads};

use crate::others::OtherTouches;
use crate::reads::LastReads;
use crate::touches::QueueReads;
use vk_order::{Line, NewNode};

/// Whether the last read of a byte, by the host or by a command of some queue, or its last
/// transition doesn't come before.
pub(crate) fn is_early(others: &OtherTouches, reads: &LastReads, new_node: &NewNode<'_>) -> bool
    ensures { IsEarly new_node.now result (with_reads others.now reads.now) }
{
    let of_host = is_ahead(reads.by_host, new_node, Line::Host);
    let of_commands = has_early_read(&reads.by_queues, new_node);
    let of_transition = has_early_transition(others, new_node);
    of_host || of_commands || of_transition
}

/// The same of the last reads by commands alone.
pub(crate) fn has_early_read(reads: &QueueReads, new_node: &NewNode<'_>) -> bool
    ensures { HasEarlyRead new_node.now result reads.now }
{
    let on_first = is_ahead(reads.first, new_node, Line::Commands(0));
    let on_second = is_ahead(reads.second, new_node, Line::Commands(1));
    let on_third = is_ahead(reads.third, new_node, Line::Commands(2));
    let on_fourth = is_ahead(reads.fourth, new_node, Line::Commands(3));
    on_first || on_second || on_third || on_fourth
}

/// The same of the last transition alone.
fn has_early_transition(others: &OtherTouches, new_node: &NewNode<'_>) -> bool
    ensures { HasEarlyTransition new_node.now result (without_reads others.now) }
{
    match others.transition {
        Some(spot) => !new_node.follows(spot.line, spot.place),
        None => false,
    }
}

/// Whether there is a node of a line that doesn't come before.
fn is_ahead(last: Option<usize>, new_node: &NewNode<'_>, line: Line) -> bool
    ensures { IsRefused (SaysFollows new_node.now line) result last }
{
    match last {
        Some(place) => !new_node.follows(line, place),
        None => false,
    }
}
