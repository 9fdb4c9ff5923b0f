ghost use Rattle.std.specs.Prelude.{◌≡◌, ◌+◌, ◌-◌, ◌∷◌, [], ℕ, OnOk, if◌then◌else◌};
ghost use Rattle.std.specs.List.{list_any};
ghost use Rattle.vk_model.specs.Trace.Point.{Past};
ghost use Rattle.vk_model.specs.Trace.Objects.{memory_of, pool_of, pool_at, live_resources};
ghost use Rattle.vk_model.specs.Trace.PointViews.{point_of};
ghost use Rattle.vk_history.specs.Counted.{AreOccupants, OccupiesBy, LeavesBy, count_at, memory_at, is_id};
ghost use Rattle.vk_history.specs.Judged.{IsJudged};
ghost use Rattle.vk_history.specs.Tabled.{AreObjects};

use crate::counts::Counts;
use crate::objects::Objects;
use crate::places::{memory_at, pool_at};
use std::alloc::{AllocError, Global};
use vk_model::{Action, Entry, Place, Point};

/// How many live resources are bound to each memory object, and how many each pool has.
#[derive(Drop)]
pub struct Occupants {
    memories: Counts,
    pools: Counts,
}

impl Occupants {
    /// Before the first point.
    pub fn new(alloc: Global) -> Occupants
        ensures { AreOccupants result [] }
    {
        Occupants {
            memories: Counts::new(alloc),
            pools: Counts::new(alloc),
        }
    }

    /// Whether a live resource is bound to a memory object.
    pub fn has_memory(&self, memory: u32) -> bool
        ensures { (past : Past) → AreOccupants self.now past → result ≡ list_any (λ r. is_id memory (memory_of past r)) (live_resources past) }
    {
        self.memories.has(memory)
    }

    /// Whether a live resource is in a pool.
    pub fn has_pool(&self, pool: u32) -> bool
        ensures { (past : Past) → AreOccupants self.now past → result ≡ list_any (λ r. is_id pool (pool_of past r)) (live_resources past) }
    {
        self.pools.has(pool)
    }

    /// Takes the next point, by the objects so far.
    pub fn note(&mut self, point: &Point<'_>, objects: &Objects<'_>) -> Result<(), AllocError>
        ensures { OnOk result ((past : Past) → IsJudged (point_of point.now ∷ past) → AreObjects objects.now past
            → AreOccupants self.old past → AreOccupants self.new (point_of point.now ∷ past)) }
    {
        match point.action {
            Action::Host(entry) => self.occupy_by(entry, objects),
            _ => Ok(()),
        }
    }

    fn occupy_by(&mut self, entry: &Entry, objects: &Objects<'_>) -> Result<(), AllocError>
        ensures memories { OnOk result ((past : Past) → AreObjects objects.now past → OccupiesBy memory_of memory_at past entry.now self.old.memories self.new.memories) }
        ensures pools { OnOk result ((past : Past) → AreObjects objects.now past → OccupiesBy pool_of pool_at past entry.now self.old.pools self.new.pools) }
    {
        match entry {
            Entry::Buffer { info, .. } => self.enter(info.place),
            Entry::Image { info, .. } => self.enter(info.place),
            Entry::Destroy { resource } => {
                self.leave(*resource, objects);
                Ok(())
            }
            Entry::EndPass { destroyed, .. } => {
                self.leave_all(destroyed.as_slice(), objects);
                Ok(())
            }
            _ => Ok(()),
        }
    }

    fn enter(&mut self, place: Place) -> Result<(), AllocError>
        ensures memories { OnOk result ((k : ℕ) → count_at self.new.memories k ≡ count_at self.old.memories k + (if is_id k (memory_at place) then 1 else 0)) }
        ensures pools { OnOk result ((k : ℕ) → count_at self.new.pools k ≡ count_at self.old.pools k + (if is_id k (pool_at place) then 1 else 0)) }
    {
        match place {
            Place::Dedicated { .. } => Ok(()),
            Place::Pool { pool } => self.pools.add(pool),
            Place::PoolUpper { pool } => self.pools.add(pool),
            Place::Memory { memory, .. } => self.memories.add(memory),
        }
    }

    fn leave_all(&mut self, resources: &[u32], objects: &Objects<'_>)
        ensures memories { (past : Past) → AreObjects objects.now past → LeavesBy memory_of past resources.now self.old.memories self.new.memories }
        ensures pools { (past : Past) → AreObjects objects.now past → LeavesBy pool_of past resources.now self.old.pools self.new.pools }
    {
        for resource in resources {
            self.leave(*resource, objects);
        }
    }

    fn leave(&mut self, resource: u32, objects: &Objects<'_>)
        ensures memories { (past : Past) → AreObjects objects.now past → LeavesBy memory_of past (resource ∷ []) self.old.memories self.new.memories }
        ensures pools { (past : Past) → AreObjects objects.now past → LeavesBy pool_of past (resource ∷ []) self.old.pools self.new.pools }
    {
        leave_one(&mut self.memories, objects.memory_of(resource));
        leave_one(&mut self.pools, objects.pool_of(resource));
    }
}

fn leave_one(counts: &mut Counts, id: Option<u32>)
    ensures { (k : ℕ) → count_at counts.new k ≡ count_at counts.old k - (if is_id k id then 1 else 0) }
{
    if let Some(id) = id {
        counts.remove(id);
    }
}
