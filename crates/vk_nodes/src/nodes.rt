ghost use Rattle.std.specs.Prelude.{◌≡◌, ◌<◌, ◌+◌, ◌^◌, [], ◌++◌, IsOk, OnErr, MatchOption, length, replicate, set, get_or};
ghost use Rattle.vk_nodes.specs.Slots.{IsHeld, AllHeld, Hands, free_count};
ghost use Rattle.vk_nodes.specs.Changes.{IsChanged};

use crate::change::Change;
use crate::filled::Filled;
use crate::node::Node;
use std::alloc::{AllocError, Global};
use std::marker::Model;

/// Slots of nodes in raw memory. Contracts see, for each slot, the node that is held there, or none
/// where the slot is free.
#[derive(Drop)]
pub struct Nodes {
    filled: Option<Filled>,
    alloc: Global,
}

impl Model for Nodes {
    ghost use Rattle.std.specs.Prelude.{List, [], Option};
    ghost use Rattle.std.specs.Option.{unwrap_or};
    ghost use Rattle.vk_nodes.specs.declared.node.Node.{Node};

    ghost Value = { List (Option Node) };

    ghost view = { λ n. unwrap_or n.filled [] };
}

impl Nodes {
    /// No slots, in no memory.
    pub fn new(alloc: Global) -> Nodes
        ensures { result ≡ [] }
    {
        Nodes {
            filled: None,
            alloc,
        }
    }

    /// Adds free slots after those that there are. The only error is want of memory, and changes
    /// nothing. The memory doubles when it grows, so many small steps copy each slot a few times.
    pub fn reserve(&mut self, more: usize) -> Result<(), AllocError>
        requires { length self.old + more < 2 ^ 32 }
        ensures ok { IsOk result → self.new ≡ self.old ++ replicate more None }
        ensures err { OnErr result (self.new ≡ self.old) }
    {
        match &mut self.filled {
            Some(filled) => filled.reserve(more),
            None => {
                self.filled = Some(Filled::new(self.alloc, more)?);
                Ok(())
            }
        }
    }

    /// How many slots there are.
    pub fn slots(&self) -> usize
        ensures count { result ≡ length self.now }
        ensures few { result < 2 ^ 32 }
    {
        match &self.filled {
            Some(filled) => filled.slots(),
            None => 0,
        }
    }

    /// How many slots are free.
    pub fn free_slots(&self) -> usize
        ensures { result ≡ free_count self.now }
    {
        match &self.filled {
            Some(filled) => filled.free_slots(),
            None => 0,
        }
    }

    /// Takes a slot that is free, and holds an empty node in it. It answers none exactly where each
    /// slot is held.
    pub fn take(&mut self) -> Option<u32>
        ensures { MatchOption result ((AllHeld self.old) × (self.new ≡ self.old)) (λ slot. Hands self.old self.new slot) }
    {
        match &mut self.filled {
            Some(filled) => filled.take(),
            None => None,
        }
    }

    /// Frees a slot.
    pub fn give(&mut self, slot: u32)
        requires { IsHeld self.old slot }
        ensures { self.new ≡ set self.old slot None }
    {
        if let Some(filled) = &mut self.filled {
            filled.give(slot);
        }
    }

    /// The node in a slot.
    pub fn get(&self, slot: u32) -> Node
        requires { IsHeld self.now slot }
        ensures { get_or self.now slot None ≡ Some result }
    {
        match &self.filled {
            Some(filled) => filled.get(slot),
            None => Node::empty(),
        }
    }

    /// The node in a slot, or none where the slot is free or there is no such slot.
    pub fn find(&self, slot: u32) -> Option<Node>
        ensures { result ≡ get_or self.now slot None }
    {
        match &self.filled {
            Some(filled) => filled.find(slot),
            None => None,
        }
    }

    /// Puts another node into a slot.
    pub fn set(&mut self, slot: u32, node: Node)
        requires { IsHeld self.old slot }
        ensures { self.new ≡ set self.old slot (Some node) }
    {
        if let Some(filled) = &mut self.filled {
            filled.set(slot, node);
        }
    }

    /// Changes some fields of the node in a slot.
    pub fn change(&mut self, slot: u32, change: Change)
        requires { IsHeld self.old slot }
        ensures { IsChanged self.old self.new slot change }
    {
        if let Some(filled) = &mut self.filled {
            filled.change(slot, change);
        }
    }
}
