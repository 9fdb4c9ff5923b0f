ghost use Rattle.std.specs.Prelude.{◌≡◌, ◌∷◌, [], OnOk, nat_lt};
ghost use Rattle.vk_model.specs.Trace.Point.{Past};
ghost use Rattle.vk_model.specs.Rules.Mapping.{maps, unmaps};
ghost use Rattle.vk_model.specs.Trace.PointViews.{point_of};
ghost use Rattle.vk_history.specs.Counted.{AreMappings, MapsBy, count_mapping};
ghost use Rattle.vk_history.specs.Judged.{IsJudged};
ghost use Rattle.vk_history.specs.Tabled.{AreObjects};

use crate::counts::Counts;
use crate::objects::Objects;
use std::alloc::{AllocError, Global};
use vk_model::{Action, Entry, Point};

/// How much more often than unmapped each memory object was mapped, and each allocation of a buffer's
/// own, which has the buffer's id.
#[derive(Drop)]
pub struct Mappings {
    mapped: Counts,
}

impl Mappings {
    /// Before the first point.
    pub fn new(alloc: Global) -> Mappings
        ensures { AreMappings result [] }
    {
        Mappings {
            mapped: Counts::new(alloc),
        }
    }

    /// Whether a memory object or an allocation is mapped.
    pub fn is_open(&self, mapping: u32) -> bool
        ensures { (past : Past) → AreMappings self.now past → result ≡ nat_lt (count_mapping past unmaps mapping) (count_mapping past maps mapping) }
    {
        self.mapped.has(mapping)
    }

    /// Takes the next point, by the objects so far.
    pub fn note(&mut self, point: &Point<'_>, objects: &Objects<'_>) -> Result<(), AllocError>
        ensures { OnOk result ((past : Past) → IsJudged (point_of point.now ∷ past) → AreObjects objects.now past
            → AreMappings self.old past → AreMappings self.new (point_of point.now ∷ past)) }
    {
        match point.action {
            Action::Host(entry) => self.map_by(entry, objects),
            _ => Ok(()),
        }
    }

    fn map_by(&mut self, entry: &Entry, objects: &Objects<'_>) -> Result<(), AllocError>
        ensures { OnOk result ((past : Past) → AreObjects objects.now past → MapsBy past entry.now self.old self.new) }
    {
        match entry {
            Entry::Map { buffer } => self.mapped.add(objects.mapping(*buffer)),
            Entry::Unmap { buffer } => {
                self.mapped.remove(objects.mapping(*buffer));
                Ok(())
            }
            _ => Ok(()),
        }
    }
}
