ghost use Rattle.std.specs.Prelude.{◌<◌, ◌≤◌, ℕ, length, not};
ghost use Rattle.vk_touches.specs.Bytes.{HaveNumbers};
ghost use Rattle.vk_touches.specs.Conflicts.{FoundAt, IsRefused, MissesAt, MissesTransitionAt, MissesWriteAt, SaysSeenAt, SomeBetween};

use crate::bytes::Bytes;
use crate::map::TouchMap;
use crate::touches::Spot;
use vk_order::{Frontier, Part};

/// How an element of a barrier that comes next accesses a resource as a layout transition, and what
/// it sees.
#[derive(Clone, Copy)]
pub struct TransitionAccess<'a> {
    /// What is known of the nodes so far.
    pub frontier: &'a Frontier,
    /// What is known at the element.
    pub part: &'a Part,
    /// The bytes of the resource.
    pub bytes: Bytes<'a>,
}

impl TransitionAccess<'_> {
    /// Whether of some byte of a range the last write by a command or the last transition isn't
    /// seen.
    pub fn misses_some(&self, touches: &TouchMap, low: u64, high: u64) -> bool
        requires order { low ≤ high }
        requires within { high ≤ length touches.now }
        requires numbers { HaveNumbers self.now.bytes high }
        ensures { FoundAt (MissesAt self.now) result touches.now low high }
    {
        self.misses_some_write(touches, low, high)
            || self.misses_some_transition(touches, low, high)
    }

    /// The same of the last writes by commands alone.
    fn misses_some_write(&self, touches: &TouchMap, low: u64, high: u64) -> bool
        requires order { low ≤ high }
        requires within { high ≤ length touches.now }
        requires numbers { HaveNumbers self.now.bytes high }
        ensures { FoundAt (MissesWriteAt self.now) result touches.now low high }
    {
        for run in touches.writes.overlapping(low, high) {
            if self.misses_write(run.start, run.end, run.value.write()) {
                return true;
            }
        }
        false
    }

    /// The same of the last transitions alone.
    fn misses_some_transition(&self, touches: &TouchMap, low: u64, high: u64) -> bool
        requires order { low ≤ high }
        requires within { high ≤ length touches.now }
        requires numbers { HaveNumbers self.now.bytes high }
        ensures { FoundAt (MissesTransitionAt self.now) result touches.now low high }
    {
        for run in touches.others.overlapping(low, high) {
            if self.misses_write(run.start, run.end, run.value.transition) {
                return true;
            }
        }
        false
    }

    /// Whether of some byte from `low` on and below `high` a write, which is the same for all of them,
    /// isn't seen.
    fn misses_write(&self, low: u64, high: u64, last: Option<Spot>) -> bool
        requires { HaveNumbers self.now.bytes high }
        ensures { SomeBetween (λ k r. IsRefused (SaysSeenAt self.now k) r last) result low high }
    {
        match last {
            Some(write) => self.is_some_unseen(low, high, write),
            None => false,
        }
    }

    /// Whether the write of some byte by the node of a spot isn't seen.
    fn is_some_unseen(&self, low: u64, high: u64, write: Spot) -> bool
        requires { HaveNumbers self.now.bytes high }
        ensures { SomeBetween (λ k r. SaysSeenAt self.now k (not r) write) result low high }
    {
        if low >= high {
            return false;
        }
        let from = write.number;
        let run = self.bytes.units(low, high);
        let unseen = self.frontier.first_unseen_at(
            self.part,
            write.in_line(),
            from,
            run.units,
            run.low,
            run.high,
        );
        unseen.is_some()
    }
}
