ghost use Rattle.std.specs.Prelude.{◌≡◌, ◌==◌, ◌∷◌, [], ℕ, OnOk, if◌then◌else◌, Some, option_map};
ghost use Rattle.std.specs.Ordering.{nat_cmp};
ghost use Rattle.std.specs.BTreeMap.{get};
ghost use Rattle.vk_model.specs.Trace.Point.{Past};
ghost use Rattle.vk_model.specs.Trace.Objects.{made, buffer, image, memory, pool, type_at, type_of, is_cached};
ghost use Rattle.vk_model.specs.Trace.PointViews.{point_of};
ghost use Rattle.vk_hazards.specs.Creators.{AreCreators, creator};

use crate::before::doings::entry_of;
use std::alloc::{AllocError, Global};
use std::collections::BTreeMap;
use vk_model::{Action, BufferInfo, Entry, ImageInfo, Place, Point};

/// The point that made each id, the last one where there are several.
#[derive(Drop)]
pub struct Creators<'a> {
    by_id: BTreeMap<u32, Point<'a>>,
}

impl<'a> Creators<'a> {
    /// Before the first point.
    pub fn new(alloc: Global) -> Creators<'a>
        ensures { AreCreators result [] }
    {
        Creators {
            by_id: BTreeMap::new(alloc),
        }
    }

    /// The point that made an id.
    pub fn creator(&self, id: u32) -> Option<Point<'a>>
        ensures { (past : Past) → AreCreators self.now past → option_map point_of result ≡ creator past id }
    {
        self.by_id.get(&id).copied()
    }

    /// The entry that made an id.
    pub fn made(&self, id: u32) -> Option<&'a Entry>
        ensures { (past : Past) → AreCreators self.now past → option_map (λ x. x.now) result ≡ made past id }
    {
        match self.creator(id) {
            Some(point) => entry_of(&point),
            None => None,
        }
    }

    /// The buffer of an id.
    pub fn buffer(&self, id: u32) -> Option<BufferInfo>
        ensures { (past : Past) → AreCreators self.now past → result ≡ buffer past id }
    {
        match self.made(id) {
            Some(Entry::Buffer { info, .. }) => Some(*info),
            _ => None,
        }
    }

    /// The image of an id.
    pub fn image(&self, id: u32) -> Option<ImageInfo>
        ensures { (past : Past) → AreCreators self.now past → result ≡ image past id }
    {
        match self.made(id) {
            Some(Entry::Image { info, .. }) => Some(*info),
            _ => None,
        }
    }

    /// The memory type of a pool.
    fn pool_type(&self, id: u32) -> Option<u32>
        ensures { (past : Past) → AreCreators self.now past → result ≡ option_map (λ x. x.memory_type) (pool past id) }
    {
        match self.made(id) {
            Some(Entry::Pool { info, .. }) => Some(info.memory_type),
            _ => None,
        }
    }

    /// The memory type of a memory object.
    fn object_type(&self, id: u32) -> Option<u32>
        ensures { (past : Past) → AreCreators self.now past → result ≡ option_map (λ x. x.memory_type) (memory past id) }
    {
        match self.made(id) {
            Some(Entry::Memory { info, .. }) => Some(info.memory_type),
            _ => None,
        }
    }

    /// The memory type of a place; none where its pool or memory object was never made.
    fn type_at(&self, place: Place) -> Option<u32>
        ensures { (past : Past) → AreCreators self.now past → result ≡ type_at past place }
    {
        match place {
            Place::Dedicated { memory_type } => Some(memory_type),
            Place::Pool { pool } => self.pool_type(pool),
            Place::PoolUpper { pool } => self.pool_type(pool),
            Place::Memory { memory, .. } => self.object_type(memory),
        }
    }

    /// The memory type of a resource.
    fn type_of(&self, id: u32) -> Option<u32>
        ensures { (past : Past) → AreCreators self.now past → result ≡ type_of past id }
    {
        match self.made(id) {
            Some(Entry::Buffer { info, .. }) => self.type_at(info.place),
            Some(Entry::Image { info, .. }) => self.type_at(info.place),
            _ => None,
        }
    }

    /// Whether the host reaches a resource through a cache: it is in memory of type 2.
    pub fn is_cached(&self, id: u32) -> bool
        ensures { (past : Past) → AreCreators self.now past → result ≡ is_cached past id }
    {
        match self.type_of(id) {
            Some(memory_type) => memory_type == 2,
            None => false,
        }
    }

    /// Takes the next point.
    pub fn note(&mut self, point: &Point<'a>) -> Result<(), AllocError>
        ensures { OnOk result ((past : Past) → AreCreators self.old past → AreCreators self.new (point_of point.now ∷ past)) }
    {
        match point.action {
            Action::Host(entry) => match entry.made_id() {
                Some(id) => self.set(id, *point),
                None => Ok(()),
            },
            _ => Ok(()),
        }
    }

    fn set(&mut self, id: u32, point: Point<'a>) -> Result<(), AllocError>
        ensures { OnOk result ((other : ℕ) → option_map point_of (get nat_cmp self.new.by_id other)
            ≡ (if other == id then Some (point_of point.entry) else option_map point_of (get nat_cmp self.old.by_id other))) }
    {
        self.by_id.insert(id, point)?;
        Ok(())
    }
}
