ghost use Rattle.std.specs.Prelude.{◌≡◌, ◌==◌, ◌∷◌, [], ℕ, OnOk, if◌then◌else◌, Some, max, length, option_and_then};
ghost use Rattle.std.specs.Option.{option_map};
ghost use Rattle.std.specs.List.{fold};
ghost use Rattle.std.specs.Ordering.{nat_cmp};
ghost use Rattle.std.specs.BTreeMap.{get};
ghost use Rattle.vk_model.specs.Trace.Point.{Past};
ghost use Rattle.vk_model.specs.Trace.Order.{signaled, signal_of};
ghost use Rattle.vk_model.specs.Sync.Node.{nodes};
ghost use Rattle.vk_model.specs.Trace.PointViews.{point_of, action_of};
ghost use Rattle.vk_touches.specs.Touched.{last_signaler, class_next, next_place, signal_spot};
ghost use Rattle.vk_history.specs.Tabled.{AreSemaphores, spot_view, greatest_of};

use std::alloc::{AllocError, Global};
use std::collections::BTreeMap;
use vk_model::{Action, Entry, Point, SemaphoreValue};
use vk_order::Line;

/// What was signaled to a semaphore.
#[derive(Clone, Copy)]
pub struct Signals {
    /// The greatest value.
    pub greatest: u64,
    /// The line of the last signal.
    pub line: Line,
    /// How many nodes of its line came before it.
    pub place: usize,
}

/// What was signaled to each semaphore.
#[derive(Drop)]
pub struct Semaphores {
    signals: BTreeMap<u32, Signals>,
}

impl Semaphores {
    /// Before the first point.
    pub fn new(alloc: Global) -> Semaphores
        ensures { AreSemaphores result [] }
    {
        Semaphores {
            signals: BTreeMap::new(alloc),
        }
    }

    /// The greatest value signaled to a semaphore; 0 before the first signal.
    pub fn greatest(&self, semaphore: u32) -> u64
        ensures { (past : Past) → AreSemaphores self.now past → result ≡ fold max 0 (signaled past semaphore) }
    {
        match self.signals.get(&semaphore) {
            Some(signals) => signals.greatest,
            None => 0,
        }
    }

    /// The last signal of a semaphore.
    pub fn last(&self, semaphore: u32) -> Option<Signals>
        ensures { (past : Past) → AreSemaphores self.now past → option_map spot_view result ≡ option_map (signal_spot past) (last_signaler past semaphore) }
    {
        self.signals.get(&semaphore).copied()
    }

    /// Takes the next point, whose node has this line and place.
    pub fn note(&mut self, point: &Point<'_>, line: Line, place: usize) -> Result<(), AllocError>
        ensures { OnOk result ((past : Past) → line ≡ class_next (point_of point.now) → place ≡ next_place past line
            → AreSemaphores self.old past → AreSemaphores self.new (point_of point.now ∷ past)) }
    {
        match signal_of(point) {
            Some(signal) => self.signal(signal.semaphore, signal.value, line, place),
            None => Ok(()),
        }
    }

    fn signal(
        &mut self,
        semaphore: u32,
        value: u64,
        line: Line,
        place: usize,
    ) -> Result<(), AllocError>
        ensures values { OnOk result ((other : ℕ) → greatest_of (get nat_cmp self.new.signals other)
            ≡ (if other == semaphore then max value (greatest_of (get nat_cmp self.old.signals other)) else greatest_of (get nat_cmp self.old.signals other))) }
        ensures spots { OnOk result ((other : ℕ) → option_map spot_view (get nat_cmp self.new.signals other)
            ≡ (if other == semaphore then Some (line, place) else option_map spot_view (get nat_cmp self.old.signals other))) }
    {
        let known = match self.signals.get(&semaphore) {
            Some(signals) => signals.greatest,
            None => 0,
        };
        let greatest = known.max(value);
        self.signals.insert(
            semaphore,
            Signals {
                greatest,
                line,
                place,
            },
        )?;
        Ok(())
    }
}

/// What a point signals.
pub fn signal_of(point: &Point<'_>) -> Option<SemaphoreValue>
    ensures { option_map (λ x. (x.semaphore, x.value)) result ≡ signal_of (action_of point.now.action) }
{
    match point.action {
        Action::Host(Entry::Signal { semaphore, value }) => Some(SemaphoreValue {
            semaphore: *semaphore,
            value: *value,
        }),
        Action::Signal(signal) => Some(SemaphoreValue {
            semaphore: signal.semaphore,
            value: signal.value,
        }),
        _ => None,
    }
}
