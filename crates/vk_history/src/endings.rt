ghost use Rattle.std.specs.Prelude.{◌≡◌, ◌∷◌, [], OnOk};
ghost use Rattle.vk_model.specs.Trace.Objects.{ended_by};
ghost use Rattle.vk_model.specs.Trace.Point.{Past};
ghost use Rattle.vk_model.specs.Trace.PointViews.{point_of};
ghost use Rattle.vk_history.specs.Ended.{AreEndings, Ends, first_end};

use std::alloc::{AllocError, Global};
use std::collections::BTreeMap;
use vk_model::{Action, Entry, Point};

/// Which entry ended each object first.
#[derive(Drop)]
pub struct Endings {
    firsts: BTreeMap<u32, usize>,
}

impl Endings {
    /// Before the first point.
    pub fn new(alloc: Global) -> Endings
        ensures { AreEndings result [] }
    {
        Endings {
            firsts: BTreeMap::new(alloc),
        }
    }

    /// The number of the first entry that ended an id.
    pub fn first(&self, id: u32) -> Option<usize>
        ensures { (past : Past) → AreEndings self.now past → result ≡ first_end past id }
    {
        self.firsts.get(&id).copied()
    }

    /// Takes the next point.
    pub fn note(&mut self, point: &Point<'_>) -> Result<(), AllocError>
        ensures { OnOk result ((past : Past) → AreEndings self.old past → AreEndings self.new (point_of point.now ∷ past)) }
    {
        match point.action {
            Action::Host(entry) => self.end_by(entry, point.entry),
            _ => Ok(()),
        }
    }

    fn end_by(&mut self, entry: &Entry, number: usize) -> Result<(), AllocError>
        ensures { OnOk result (Ends self.old self.new (ended_by entry.now) number) }
    {
        match entry {
            Entry::Free { memory } => self.end(*memory, number),
            Entry::Destroy { resource } => self.end(*resource, number),
            Entry::DropPool { pool } => self.end(*pool, number),
            Entry::EndPass { destroyed, .. } => self.end_all(destroyed.as_slice(), number),
            Entry::EndDefrag { defrag } => self.end(*defrag, number),
            _ => Ok(()),
        }
    }

    fn end_all(&mut self, ids: &[u32], number: usize) -> Result<(), AllocError>
        ensures { OnOk result (Ends self.old self.new ids.now number) }
    {
        for id in ids {
            self.end(*id, number)?;
        }
        Ok(())
    }

    fn end(&mut self, id: u32, number: usize) -> Result<(), AllocError>
        ensures { OnOk result (Ends self.old self.new (id ∷ []) number) }
    {
        if !self.firsts.contains_key(&id) {
            self.firsts.insert(id, number)?;
        }
        Ok(())
    }
}
