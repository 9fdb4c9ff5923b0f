ghost use Rattle.std.specs.Prelude.{◌≡◌, ◌<◌, ◌≤◌, ◌-◌, ◌^◌, ◌++◌, IfOk, length, map, drop, replicate, set, get_or, None};
ghost use Rattle.vk_nodes.specs.Slots.{IsHeld};
ghost use Rattle.vk_nodes.specs.Changes.{IsChanged};
ghost use Rattle.vk_nodes.specs.Inner.Columns.{seen, entry};

use crate::block::{Block, Lease};
use crate::change::{Change, apply};
use crate::node::Node;
use crate::slot::Slot;
use std::alloc::{AllocError, Global};
use std::marker::Model;

/// Records of slots, in a block that is freed when the store is dropped. Contracts see the nodes
/// that are held, and the names.
pub(crate) struct Store {
    block: Block,
    lease: Lease<Global>,
    alloc: Global,
}

impl Model for Store {
    ghost use Rattle.vk_nodes.specs.Inner.Columns.{Columns, columns};
    ghost use Rattle.vk_nodes.specs.Inner.IsStore.{IsStore};

    ghost Value = { Columns };

    ghost view = { λ s. columns s.block.slots };

    ghost invariant = { IsStore };
}

impl Drop for Store {
    fn drop(self) {
        let Store {
            block,
            lease,
            alloc,
        } = self;
        block.free(lease, &alloc);
    }
}

impl Store {
    /// So many records that hold nothing. The only error is want of memory.
    pub(crate) fn new(alloc: Global, size: usize) -> Result<Store, AllocError>
        requires { size < 2 ^ 32 }
        ensures nodes { IfOk result (λ s. s.nodes ≡ replicate size None) }
        ensures names { IfOk result (λ s. s.names ≡ replicate size 0) }
    {
        match Block::new(&alloc, size, Slot::empty()) {
            Some((block, lease)) => Ok(Store {
                block,
                lease,
                alloc,
            }),
            None => Err(AllocError),
        }
    }

    /// These records, and then others that hold nothing, `size` in all. The only error is want of
    /// memory.
    pub(crate) fn longer(&self, size: usize) -> Result<Store, AllocError>
        requires more { length self.now.nodes ≤ size }
        requires few { size < 2 ^ 32 }
        ensures nodes { IfOk result (λ s. s.nodes ≡ self.now.nodes ++ replicate (size - length self.now.nodes) None) }
        ensures names { IfOk result (λ s. s.names ≡ self.now.names ++ replicate (size - length self.now.nodes) 0) }
    {
        let mut longer = Store::new(self.alloc, size)?;
        let slots = self.block.as_slice();
        longer.copy_from(slots);
        Ok(longer)
    }

    /// Copies records over as many of the first.
    fn copy_from(&mut self, slots: &[Slot])
        requires { length slots.now ≤ length self.old.nodes }
        ensures nodes { self.new.nodes ≡ map seen slots.now ++ drop (length slots.now) self.old.nodes }
        ensures names { self.new.names ≡ map entry slots.now ++ drop (length slots.now) self.old.names }
    {
        let all = self.block.as_mut_slice();
        copy_over(all, slots);
    }

    /// How many records there are.
    pub(crate) fn size(&self) -> usize
        ensures { result ≡ length self.now.nodes }
    {
        self.block.as_slice().len()
    }

    /// The name in a record.
    pub(crate) fn name(&self, at: usize) -> u32
        requires { at < length self.now.nodes }
        ensures { result ≡ get_or self.now.names at 0 }
    {
        self.block.as_slice()[at].name
    }

    /// Puts a name into a record.
    pub(crate) fn set_name(&mut self, at: usize, name: u32)
        requires { at < length self.old.nodes }
        ensures nodes { self.new.nodes ≡ self.old.nodes }
        ensures names { self.new.names ≡ set self.old.names at name }
    {
        let slots = self.block.as_mut_slice();
        let slot = &mut slots[at];
        slot.name = name;
    }

    /// The node that is held in a record.
    pub(crate) fn node(&self, at: usize) -> Node
        requires { IsHeld self.now.nodes at }
        ensures { get_or self.now.nodes at None ≡ Some result }
    {
        self.block.as_slice()[at].node
    }

    /// The node that is held in a record, if one is.
    pub(crate) fn find(&self, at: usize) -> Option<Node>
        requires { at < length self.now.nodes }
        ensures { result ≡ get_or self.now.nodes at None }
    {
        let slot = self.block.as_slice()[at];
        if slot.is_held { Some(slot.node) } else { None }
    }

    /// Holds a node in a record.
    pub(crate) fn hold(&mut self, at: usize, node: Node)
        requires { at < length self.old.nodes }
        ensures nodes { self.new.nodes ≡ set self.old.nodes at (Some node) }
        ensures names { self.new.names ≡ self.old.names }
    {
        let slots = self.block.as_mut_slice();
        let slot = &mut slots[at];
        slot.node = node;
        slot.is_held = true;
    }

    /// Changes the node that is held in a record, if one is.
    pub(crate) fn change(&mut self, at: usize, change: Change)
        requires { at < length self.old.nodes }
        ensures nodes { IsChanged self.old.nodes self.new.nodes at change }
        ensures none { get_or self.old.nodes at None ≡ None → self.new.nodes ≡ self.old.nodes }
        ensures names { self.new.names ≡ self.old.names }
    {
        let slots = self.block.as_mut_slice();
        let slot = &mut slots[at];
        apply(&mut slot.node, change);
    }

    /// Lets go of the node in a record.
    pub(crate) fn release(&mut self, at: usize)
        requires { at < length self.old.nodes }
        ensures nodes { self.new.nodes ≡ set self.old.nodes at None }
        ensures names { self.new.names ≡ self.old.names }
    {
        let slots = self.block.as_mut_slice();
        let slot = &mut slots[at];
        slot.is_held = false;
    }
}

/// Copies records over as many of the first.
fn copy_over(all: &mut [Slot], slots: &[Slot])
    requires { length slots.now ≤ length all.old }
    ensures { all.new ≡ slots.now ++ drop (length slots.now) all.old }
{
    all[..slots.len()].copy_from_slice(slots);
}
