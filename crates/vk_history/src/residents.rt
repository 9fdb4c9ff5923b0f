ghost use Rattle.std.specs.Prelude.{◌≡◌, ◌∷◌, [], ℕ, OnOk, Some, Contains};
ghost use Rattle.vk_model.specs.Trace.Point.{Past};
ghost use Rattle.vk_model.specs.Trace.Objects.{pool_at, pool_of};
ghost use Rattle.vk_model.specs.Trace.PointViews.{point_of};
ghost use Rattle.vk_history.specs.Residents.{residents_at, AreResidents, ResideBy};

use crate::places::pool_at;
use std::alloc::{AllocError, Global};
use vk_ids::IdMap;
use vk_model::{Action, Entry, Place, Point};

/// The resources that were ever created in each pool, the oldest first.
#[derive(Drop)]
pub struct Residents {
    alloc: Global,
    by_pool: IdMap<Vec<u32>>,
}

impl Residents {
    /// Before the first point.
    pub fn new(alloc: Global) -> Residents
        ensures { AreResidents result [] }
    {
        Residents {
            alloc,
            by_pool: IdMap::new(alloc),
        }
    }

    /// Those of a pool.
    pub fn of(&self, pool: u32) -> &[u32]
        ensures { result.now ≡ residents_at self.now pool }
    {
        match self.by_pool.get(pool) {
            Some(resources) => resources.as_slice(),
            None => &[],
        }
    }

    /// Takes the next point.
    pub fn note(&mut self, point: &Point<'_>) -> Result<(), AllocError>
        ensures { OnOk result ((past : Past) → AreResidents self.old past → AreResidents self.new (point_of point.now ∷ past)) }
    {
        match point.action {
            Action::Host(entry) => self.reside_by(entry),
            _ => Ok(()),
        }
    }

    fn reside_by(&mut self, entry: &Entry) -> Result<(), AllocError>
        ensures { OnOk result (ResideBy entry.now self.old self.new) }
    {
        match entry {
            Entry::Buffer { id, info } => self.enter(*id, info.place),
            Entry::Image { id, info } => self.enter(*id, info.place),
            _ => Ok(()),
        }
    }

    fn enter(&mut self, id: u32, place: Place) -> Result<(), AllocError>
        ensures kept { OnOk result ((q r : ℕ) → Contains (residents_at self.old q) r → Contains (residents_at self.new q) r) }
        ensures here { OnOk result ((q : ℕ) → pool_at place ≡ Some q → Contains (residents_at self.new q) id) }
    {
        match pool_at(place) {
            Some(pool) => self.add(pool, id),
            None => Ok(()),
        }
    }

    fn add(&mut self, pool: u32, id: u32) -> Result<(), AllocError>
        ensures kept { OnOk result ((q r : ℕ) → Contains (residents_at self.old q) r → Contains (residents_at self.new q) r) }
        ensures here { OnOk result (Contains (residents_at self.new pool) id) }
    {
        match self.by_pool.get_mut(pool) {
            Some(resources) => {
                resources.push(id)?;
                Ok(())
            }
            None => {
                let mut resources = Vec::new(self.alloc);
                resources.push(id)?;
                self.by_pool.put(pool, resources)?;
                Ok(())
            }
        }
    }
}
