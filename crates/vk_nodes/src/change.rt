ghost use Rattle.std.specs.Prelude.{◌≡◌};
ghost use Rattle.vk_nodes.specs.Changes.{changed};

use crate::node::{Node, RangeState};

/// A change to some fields of a node, which keeps the others.
#[derive(Clone, Copy, Debug)]
pub enum Change {
    /// Another range is before it by place.
    Before(u32),
    /// It ends elsewhere, another range is after it by place, and it is something else.
    End {
        /// Its bytes.
        size: u64,
        /// The slot of the range after it by place.
        after: Option<u32>,
        /// What it is.
        state: RangeState,
    },
    /// It is something else.
    State(RangeState),
    /// It is elsewhere in a list of free ranges.
    Listed {
        /// The slot of the free range before it in its list.
        previous: Option<u32>,
        /// The slot of the free range after it in its list.
        next: Option<u32>,
    },
    /// Another free range is before it in its list, or none.
    PreviousFree(Option<u32>),
    /// Another free range is after it in its list, or none.
    NextFree(Option<u32>),
}

/// Changes a node in its place.
pub(crate) fn apply(node: &mut Node, change: Change)
    ensures { node.new ≡ changed node.old change }
{
    match change {
        Change::Before(before) => node.before = Some(before),
        Change::End { size, after, state } => {
            node.size = size;
            node.after = after;
            node.state = state;
        }
        Change::State(state) => node.state = state,
        Change::Listed { previous, next } => {
            node.previous_free = previous;
            node.next_free = next;
        }
        Change::PreviousFree(previous) => node.previous_free = previous,
        Change::NextFree(next) => node.next_free = next,
    }
}
