use crate::node::Node;

/// A place for one node, and a place of the stack of free slots.
#[derive(Clone, Copy)]
pub(crate) struct Slot {
    /// The free slot that stands at this place of the stack, where the stack is so long.
    pub(crate) name: u32,
    /// Whether a node is held here.
    pub(crate) is_held: bool,
    /// The node, where one is held.
    pub(crate) node: Node,
}

impl Slot {
    ghost use Rattle.std.specs.Prelude.{◌≡◌};
    ghost use Rattle.vk_nodes.specs.Inner.Columns.{empty_slot};

    /// A record that holds nothing.
    pub(crate) fn empty() -> Slot
        ensures { result ≡ empty_slot }
    {
        Slot {
            node: Node::empty(),
            is_held: false,
            name: 0,
        }
    }
}
