ghost use Rattle.std.specs.Prelude.{◌≡◌, ◌∷◌, [], OnOk};
ghost use Rattle.vk_model.specs.Trace.Point.{Past};
ghost use Rattle.vk_model.specs.Rules.Passes as passes;
ghost use Rattle.vk_model.specs.Trace.PointViews.{point_of};
ghost use Rattle.vk_history.specs.Counted.{AreDefrags, DefragsBy, pass_after, pass_begun};
ghost use Rattle.vk_history.specs.Judged.{IsJudged};
ghost use Rattle.vk_history.specs.Tabled.{AreObjects};

use crate::counts::Counts;
use crate::objects::Objects;
use std::alloc::{AllocError, Global};
use vk_model::{Action, Entry, Point};

/// A pass that has begun and not ended, with the pool of its defragmentation.
#[derive(Clone, Copy)]
pub struct OpenPass {
    /// The id of its defragmentation.
    pub defrag: u32,
    /// The id of the pool.
    pub pool: u32,
}

/// How many defragmentations each pool has that haven't ended, and the pass that is open.
#[derive(Drop)]
pub struct Defrags {
    pools: Counts,
    pass: Option<OpenPass>,
}

impl Defrags {
    /// Before the first point.
    pub fn new(alloc: Global) -> Defrags
        ensures { AreDefrags result [] }
    {
        Defrags {
            pools: Counts::new(alloc),
            pass: None,
        }
    }

    /// Whether a pool has a defragmentation that hasn't ended.
    pub fn has_pool(&self, pool: u32) -> bool
        ensures { (past : Past) → AreDefrags self.now past → result ≡ passes.has_defrag past pool }
    {
        self.pools.has(pool)
    }

    /// Whether a pass of a defragmentation is open.
    pub fn is_in_pass(&self, defrag: u32) -> bool
        ensures { (past : Past) → AreDefrags self.now past → result ≡ passes.in_pass past defrag }
    {
        match self.pass {
            Some(pass) => pass.defrag == defrag,
            None => false,
        }
    }

    /// Whether any pass is open.
    pub fn has_pass(&self) -> bool
        ensures { (past : Past) → AreDefrags self.now past → result ≡ passes.some_pass past }
    {
        self.pass.is_some()
    }

    /// Whether a pass of a pool is open.
    pub fn is_pool_in_pass(&self, pool: u32) -> bool
        ensures { (past : Past) → AreDefrags self.now past → result ≡ passes.pool_in_pass past pool }
    {
        match self.pass {
            Some(pass) => pass.pool == pool,
            None => false,
        }
    }

    /// Takes the next point, by the objects so far.
    pub fn note(&mut self, point: &Point<'_>, objects: &Objects<'_>) -> Result<(), AllocError>
        ensures { OnOk result ((past : Past) → IsJudged (point_of point.now ∷ past) → AreObjects objects.now past
            → AreDefrags self.old past → AreDefrags self.new (point_of point.now ∷ past)) }
    {
        match point.action {
            Action::Host(entry) => self.defrag_by(entry, objects),
            _ => Ok(()),
        }
    }

    fn defrag_by(&mut self, entry: &Entry, objects: &Objects<'_>) -> Result<(), AllocError>
        ensures pools { OnOk result ((past : Past) → AreObjects objects.now past → DefragsBy past entry.now self.old.pools self.new.pools) }
        ensures pass { OnOk result ((past : Past) → AreObjects objects.now past → self.new.pass ≡ pass_after past entry.now self.old.pass) }
    {
        match entry {
            Entry::Defrag { pool, .. } => self.pools.add(*pool),
            Entry::Pass { defrag } => {
                self.pass = pass_of(objects, *defrag);
                Ok(())
            }
            Entry::EndPass { .. } => {
                self.pass = None;
                Ok(())
            }
            Entry::EndDefrag { defrag } => {
                if let Some(pool) = objects.defragmented(*defrag) {
                    self.pools.remove(pool);
                }
                Ok(())
            }
            _ => Ok(()),
        }
    }
}

/// The pass that a defragmentation begins.
fn pass_of(objects: &Objects<'_>, defrag: u32) -> Option<OpenPass>
    ensures { (past : Past) → AreObjects objects.now past → result ≡ pass_begun past defrag }
{
    match objects.defragmented(defrag) {
        Some(pool) => Some(OpenPass { defrag, pool }),
        None => None,
    }
}
