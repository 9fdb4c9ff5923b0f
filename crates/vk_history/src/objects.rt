ghost use Rattle.std.specs.Prelude.{◌≡◌, ◌==◌, ◌∷◌, [], ℕ, OnOk, if◌then◌else◌, Some, option_and_then};
ghost use Rattle.std.specs.Option.{option_map};
ghost use Rattle.vk_ids.specs.Ids.{value_of};
ghost use Rattle.vk_model.specs.Trace.Point.{Past};
ghost use Rattle.vk_model.specs.Trace.Objects as objects;
ghost use Rattle.vk_model.specs.Trace.Objects.{made, memory, pool, memory_of, pool_of, defrag_in, resource, type_at, type_of, is_cached, is_exclusive, is_exclusive_mode};
ghost use Rattle.vk_model.specs.Rules.Mapping.{mapping};
ghost use Rattle.vk_model.specs.Trace.PointViews.{point_of};
ghost use Rattle.vk_history.specs.Made.{last_creator};
ghost use Rattle.vk_history.specs.Tabled.{AreObjects, creator_view};

use crate::places::{bound_at, memory_at, pool_at};
use std::alloc::{AllocError, Global};
use vk_ids::IdMap;
use vk_model::{Action, Entry, Place, Point, Sharing};

/// An entry that made an object, with its number.
#[derive(Clone, Copy)]
pub struct Creator<'a> {
    /// The entry.
    pub entry: &'a Entry,
    /// How many entries come before it.
    pub number: usize,
}

/// Which entry made each object.
#[derive(Drop)]
pub struct Objects<'a> {
    creators: IdMap<Creator<'a>>,
}

impl<'a> Objects<'a> {
    /// Before the first point.
    pub fn new(alloc: Global) -> Objects<'a>
        ensures { AreObjects result [] }
    {
        Objects {
            creators: IdMap::new(alloc),
        }
    }

    /// The last entry that made an id.
    pub fn creator(&self, id: u32) -> Option<Creator<'a>>
        ensures { (past : Past) → AreObjects self.now past → option_map creator_view result ≡ last_creator past id }
    {
        self.creators.get(id).copied()
    }

    /// The entry that made an object.
    pub fn made(&self, id: u32) -> Option<&'a Entry>
        ensures { (past : Past) → AreObjects self.now past → option_map (λ x. x.now) result ≡ made past id }
    {
        match self.creator(id) {
            Some(creator) => Some(creator.entry),
            None => None,
        }
    }

    /// The memory type of a place; none where its pool or memory object was never made.
    pub fn type_at(&self, place: Place) -> Option<u32>
        ensures { (past : Past) → AreObjects self.now past → result ≡ type_at past place }
    {
        match place {
            Place::Dedicated { memory_type } => Some(memory_type),
            Place::Pool { pool } => self.pool_type(pool),
            Place::PoolUpper { pool } => self.pool_type(pool),
            Place::Memory { memory, .. } => self.object_type(memory),
        }
    }

    /// The memory type of a pool.
    fn pool_type(&self, id: u32) -> Option<u32>
        ensures { (past : Past) → AreObjects self.now past → result ≡ option_map (λ x. x.memory_type) (pool past id) }
    {
        match self.made(id) {
            Some(Entry::Pool { info, .. }) => Some(info.memory_type),
            _ => None,
        }
    }

    /// The memory type of a memory object.
    fn object_type(&self, id: u32) -> Option<u32>
        ensures { (past : Past) → AreObjects self.now past → result ≡ option_map (λ x. x.memory_type) (memory past id) }
    {
        match self.made(id) {
            Some(Entry::Memory { info, .. }) => Some(info.memory_type),
            _ => None,
        }
    }

    /// The memory type of a resource.
    pub fn type_of(&self, id: u32) -> Option<u32>
        ensures { (past : Past) → AreObjects self.now past → result ≡ type_of past id }
    {
        match self.made(id) {
            Some(Entry::Buffer { info, .. }) => self.type_at(info.place),
            Some(Entry::Image { info, .. }) => self.type_at(info.place),
            _ => None,
        }
    }

    /// Whether the host reaches a resource through a cache: it is in memory of type 2.
    pub fn is_cached(&self, id: u32) -> bool
        ensures { (past : Past) → AreObjects self.now past → result ≡ is_cached past id }
    {
        match self.type_of(id) {
            Some(memory_type) => memory_type == 2,
            None => false,
        }
    }

    /// The memory object that the trace bound a resource to.
    pub fn memory_of(&self, id: u32) -> Option<u32>
        ensures { (past : Past) → AreObjects self.now past → result ≡ memory_of past id }
    {
        match self.made(id) {
            Some(Entry::Buffer { info, .. }) => memory_at(info.place),
            Some(Entry::Image { info, .. }) => memory_at(info.place),
            _ => None,
        }
    }

    /// The memory object that the trace bound a resource to, and the offset in it in bytes.
    pub fn bound_at(&self, id: u32) -> Option<(u32, u64)>
        ensures { (past : Past) → AreObjects self.now past → result ≡ option_and_then (λ r. objects.bound_at r.place) (resource past id) }
    {
        match self.made(id) {
            Some(Entry::Buffer { info, .. }) => bound_at(info.place),
            Some(Entry::Image { info, .. }) => bound_at(info.place),
            _ => None,
        }
    }

    /// The pool that a resource is in.
    pub fn pool_of(&self, id: u32) -> Option<u32>
        ensures { (past : Past) → AreObjects self.now past → result ≡ pool_of past id }
    {
        match self.made(id) {
            Some(Entry::Buffer { info, .. }) => pool_at(info.place),
            Some(Entry::Image { info, .. }) => pool_at(info.place),
            _ => None,
        }
    }

    /// Whether one queue family at a time owns a resource.
    pub fn is_exclusive(&self, id: u32) -> bool
        ensures { (past : Past) → AreObjects self.now past → result ≡ is_exclusive past id }
    {
        match self.made(id) {
            Some(Entry::Buffer { info, .. }) => is_exclusive(info.sharing),
            Some(Entry::Image { info, .. }) => is_exclusive(info.sharing),
            _ => false,
        }
    }

    /// The pool of a defragmentation, also of one that has ended.
    pub fn defragmented(&self, id: u32) -> Option<u32>
        ensures { (past : Past) → AreObjects self.now past → result ≡ option_and_then defrag_in (made past id) }
    {
        match self.made(id) {
            Some(Entry::Defrag { pool, .. }) => Some(*pool),
            _ => None,
        }
    }

    /// What is mapped with a resource: the memory object that the trace bound it to, or its own
    /// allocation, which has its id.
    pub fn mapping(&self, id: u32) -> u32
        ensures { (past : Past) → AreObjects self.now past → result ≡ mapping past id }
    {
        match self.memory_of(id) {
            Some(memory) => memory,
            None => id,
        }
    }

    /// Takes the next point.
    pub fn note(&mut self, point: &Point<'a>) -> Result<(), AllocError>
        ensures { OnOk result ((past : Past) → AreObjects self.old past → AreObjects self.new (point_of point.now ∷ past)) }
    {
        match point.action {
            Action::Host(entry) => match entry.made_id() {
                Some(id) => self.set(
                    id,
                    Creator {
                        entry,
                        number: point.entry,
                    },
                ),
                None => Ok(()),
            },
            _ => Ok(()),
        }
    }

    fn set(&mut self, id: u32, creator: Creator<'a>) -> Result<(), AllocError>
        ensures { OnOk result ((other : ℕ) → option_map creator_view (value_of self.new.creators other)
            ≡ (if other == id then Some (creator_view creator.entry) else option_map creator_view (value_of self.old.creators other))) }
    {
        self.creators.put(id, creator)?;
        Ok(())
    }
}

fn is_exclusive(mode: Sharing) -> bool
    ensures { result ≡ is_exclusive_mode mode }
{
    matches!(mode, Sharing::Exclusive)
}
