ghost use Rattle.std.specs.Prelude.{◌≡◌, ◌<◌, ◌+◌, ◌^◌, ◌++◌, IfOk, IsOk, OnErr, MatchOption, length, replicate, set, get_or};
ghost use Rattle.vk_nodes.specs.Slots.{IsHeld, AllHeld, Hands, free_count};
ghost use Rattle.vk_nodes.specs.Changes.{IsChanged};

use crate::change::Change;
use crate::node::Node;
use crate::store::Store;
use std::alloc::{AllocError, Global};
use std::marker::Model;

/// How many records there are at first, at least.
const FIRST: usize = 16;

/// Memory for fewer slots than this grows to four times as many.
const SMALL: usize = 4_096;

/// The most records that there can be, each named by 32 bits.
const MOST: usize = u32::MAX as usize;

/// Slots of nodes that have memory from the start, as `Nodes` has once it has a slot. Contracts see,
/// for each slot, the node that is held there, or none where the slot is free.
///
/// There may be more records in the store than slots. The free ones among the slots that were used
/// are a stack: its entries are the names in the first records.
#[derive(Drop)]
pub struct Filled {
    store: Store,
    slots: usize,
    used: usize,
    free: usize,
}

impl Model for Filled {
    ghost use Rattle.std.specs.Prelude.{List, Option};
    ghost use Rattle.vk_nodes.specs.declared.node.Node.{Node};
    ghost use Rattle.vk_nodes.specs.Inner.IsFilled.{IsFilled, slots_seen};

    ghost Value = { List (Option Node) };

    ghost view = { λ f. slots_seen f.used f.slots f.store.nodes };

    ghost invariant = { IsFilled };
}

impl Filled {
    /// So many slots, all free. The only error is want of memory.
    pub fn new(alloc: Global, slots: usize) -> Result<Filled, AllocError>
        requires { slots < 2 ^ 32 }
        ensures { IfOk result (λ f. f ≡ replicate slots None) }
    {
        let store = Store::new(alloc, slots.max(FIRST))?;
        Ok(Filled {
            store,
            slots,
            used: 0,
            free: 0,
        })
    }

    /// How many slots there are.
    pub fn slots(&self) -> usize
        ensures count { result ≡ length self.now }
        ensures few { result < 2 ^ 32 }
    {
        self.slots
    }

    /// How many of them are free.
    pub fn free_slots(&self) -> usize
        ensures { result ≡ free_count self.now }
    {
        self.free + (self.slots - self.used)
    }

    /// Adds free slots after those that there are. The only error is want of memory, and changes
    /// nothing. The memory grows to a multiple, so many small steps copy each slot a few times.
    pub fn reserve(&mut self, more: usize) -> Result<(), AllocError>
        requires { length self.old + more < 2 ^ 32 }
        ensures ok { IsOk result → self.new ≡ self.old ++ replicate more None }
        ensures err { OnErr result (self.new ≡ self.old) }
    {
        let slots = self.slots + more;
        let size = self.store.size();
        if slots > size {
            self.store = self.store.longer(slots.max(grown(size)))?;
        }
        self.slots = slots;
        Ok(())
    }

    /// Takes a slot that is free, and holds an empty node in it. It answers none exactly where each
    /// slot is held.
    pub fn take(&mut self) -> Option<u32>
        ensures { MatchOption result ((AllHeld self.old) × (self.new ≡ self.old)) (λ slot. Hands self.old self.new slot) }
    {
        if self.free > 0 {
            self.free -= 1;
            let slot = self.store.name(self.free);
            self.store.hold(slot as usize, Node::empty());
            return Some(slot);
        }
        if self.used < self.slots {
            let slot = self.used;
            self.used += 1;
            self.store.hold(slot, Node::empty());
            return Some(slot as u32);
        }
        None
    }

    /// Frees a slot.
    pub fn give(&mut self, slot: u32)
        requires { IsHeld self.old slot }
        ensures { self.new ≡ set self.old slot None }
    {
        self.store.release(slot as usize);
        self.store.set_name(self.free, slot);
        self.free += 1;
    }

    /// The node in a slot.
    pub fn get(&self, slot: u32) -> Node
        requires { IsHeld self.now slot }
        ensures { get_or self.now slot None ≡ Some result }
    {
        self.store.node(slot as usize)
    }

    /// The node in a slot, or none where the slot is free or there is no such slot.
    pub fn find(&self, slot: u32) -> Option<Node>
        ensures { result ≡ get_or self.now slot None }
    {
        if (slot as usize) < self.used {
            self.store.find(slot as usize)
        } else {
            None
        }
    }

    /// Puts another node into a slot.
    pub fn set(&mut self, slot: u32, node: Node)
        requires { IsHeld self.old slot }
        ensures { self.new ≡ set self.old slot (Some node) }
    {
        self.store.hold(slot as usize, node);
    }

    /// Changes some fields of the node in a slot.
    pub fn change(&mut self, slot: u32, change: Change)
        requires { IsHeld self.old slot }
        ensures { IsChanged self.old self.new slot change }
    {
        self.store.change(slot as usize, change);
    }

    /// The same, unless the slot is free or there is no such slot: then nothing changes. It looks at
    /// no node, so it need not wait for one.
    pub fn change_if_held(&mut self, slot: u32, change: Change)
        ensures held { IsChanged self.old self.new slot change }
        ensures free { get_or self.old slot None ≡ None → self.new ≡ self.old }
    {
        let at = slot as usize;
        if at < self.used {
            self.store.change(at, change);
        }
    }
}

/// To how many slots the memory of so many grows: small ones to four times as many, since what is left
/// behind is memory that was touched for a short time.
fn grown(size: usize) -> usize
    requires { size < 2 ^ 32 }
    ensures { result < 2 ^ 32 }
{
    let times = if size < SMALL { 4 } else { 2 };
    (times * size).min(MOST)
}
