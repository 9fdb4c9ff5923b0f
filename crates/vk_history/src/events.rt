ghost use Rattle.std.specs.Prelude.{◌≡◌, ◌==◌, ◌∷◌, [], ℕ, OnOk, if◌then◌else◌, Some};
ghost use Rattle.std.specs.Option.{option_map};
ghost use Rattle.std.specs.Ordering.{nat_cmp};
ghost use Rattle.std.specs.BTreeMap.{get};
ghost use Rattle.vk_model.specs.Trace.Point.{Past};
ghost use Rattle.vk_model.specs.Trace.PointViews.{point_of};
ghost use Rattle.vk_history.specs.Made.{last_set};
ghost use Rattle.vk_history.specs.Tabled.{AreEvents, set_view};

use std::alloc::{AllocError, Global};
use std::collections::BTreeMap;
use vk_model::{Action, Cmd, Dependency, Point};

/// How an event was set: on which queue, and with which elements.
#[derive(Clone, Copy)]
pub struct EventSet<'a> {
    /// The queue of the set.
    pub queue: u32,
    /// Its dependency elements.
    pub elements: &'a [Dependency],
}

/// How each event was set last.
#[derive(Drop)]
pub struct Events<'a> {
    sets: BTreeMap<u32, EventSet<'a>>,
}

impl<'a> Events<'a> {
    /// Before the first point.
    pub fn new(alloc: Global) -> Events<'a>
        ensures { AreEvents result [] }
    {
        Events {
            sets: BTreeMap::new(alloc),
        }
    }

    /// How an event was set last.
    pub fn last_set(&self, event: u32) -> Option<EventSet<'a>>
        ensures { (past : Past) → AreEvents self.now past → option_map set_view result ≡ last_set past event }
    {
        self.sets.get(&event).copied()
    }

    /// Takes the next point.
    pub fn note(&mut self, point: &Point<'a>) -> Result<(), AllocError>
        ensures { OnOk result ((past : Past) → AreEvents self.old past → AreEvents self.new (point_of point.now ∷ past)) }
    {
        match point.action {
            Action::Run(Cmd::Set { event, elements }) => self.set(
                *event,
                EventSet {
                    queue: point.queue,
                    elements: elements.as_slice(),
                },
            ),
            _ => Ok(()),
        }
    }

    fn set(&mut self, event: u32, set: EventSet<'a>) -> Result<(), AllocError>
        ensures { OnOk result ((other : ℕ) → option_map set_view (get nat_cmp self.new.sets other)
            ≡ (if other == event then Some (set_view set.entry) else option_map set_view (get nat_cmp self.old.sets other))) }
    {
        self.sets.insert(event, set)?;
        Ok(())
    }
}
