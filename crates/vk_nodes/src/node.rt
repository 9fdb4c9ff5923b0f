/// What a range of bytes is.
#[derive(Clone, Copy, PartialEq, Eq, Debug)]
pub enum RangeState {
    /// Nothing lies there.
    Free,
    /// A buffer, or an image of linear tiling, lies there.
    Linear,
    /// An image of optimal tiling lies there.
    Optimal,
}

/// A range of bytes in a block of memory, as a node of two lists: that of all ranges by place, and
/// that of free ranges of like size.
#[derive(Clone, Copy, PartialEq, Eq, Debug)]
pub struct Node {
    /// Where the range starts, in bytes.
    pub start: u64,
    /// Its bytes.
    pub size: u64,
    /// What it is.
    pub state: RangeState,
    /// The slot of the range before it by place.
    pub before: Option<u32>,
    /// The slot of the range after it by place.
    pub after: Option<u32>,
    /// The slot of the free range before it in its list.
    pub previous_free: Option<u32>,
    /// The slot of the free range after it in its list.
    pub next_free: Option<u32>,
}

impl Node {
    ghost use Rattle.std.specs.Prelude.{◌≡◌};
    ghost use Rattle.vk_nodes.specs.Slots.{empty_node};

    /// The node of no bytes, in no list.
    pub fn empty() -> Node
        ensures { result ≡ empty_node }
    {
        Node {
            start: 0,
            size: 0,
            before: None,
            after: None,
            previous_free: None,
            next_free: None,
            state: RangeState::Free,
        }
    }
}
