ghost use Rattle.std.specs.Prelude.{◌≡◌, ◌<◌, ◌≤◌, ℕ, Bool, true, false, length, not};
ghost use Rattle.vk_touches.specs.Bytes.{HaveNumbers};
ghost use Rattle.vk_touches.specs.Conflicts.{AreSeen, FoundAt, IsRefused, Misses, MissesFlush, MissesHostWrite, MissesOther, MissesRead, MissesWrite, SaysSeen, SeesWrite, SomeBetween};
ghost use Rattle.vk_touches.specs.TouchMaps.{without_reads, with_write_alone};

use crate::bytes::Bytes;
use crate::map::TouchMap;
use crate::others::OtherTouches;
use crate::touches::Spot;
use crate::writes::LastWrite;
use vk_order::{Access, Frontier, NewNode, SeenUntil, VisiblePrefix};

/// How the node of a point that comes next accesses a resource, and what it sees.
#[derive(Clone, Copy)]
pub struct ResourceAccess<'a> {
    /// What is known of the nodes so far.
    pub frontier: &'a Frontier,
    /// What the node has before it, and what it sees.
    pub new_node: &'a NewNode<'a>,
    /// The bytes of the resource.
    pub bytes: Bytes<'a>,
    /// How it is accessed.
    pub access: Access,
}

impl ResourceAccess<'_> {
    /// Whether of some byte of a range the last write by a command or by the host, or the last
    /// transition, isn't seen.
    pub fn misses_some(&self, touches: &TouchMap, low: u64, high: u64, is_cached: bool) -> bool
        requires order { low ≤ high }
        requires within { high ≤ length touches.now }
        requires numbers { HaveNumbers self.now.bytes high }
        ensures { FoundAt (Misses is_cached self.now) result touches.now low high }
    {
        self.misses_some_write(touches, low, high)
            || self.misses_some_other(touches, low, high, is_cached)
    }

    /// The same of the last writes by commands alone.
    pub fn misses_some_write(&self, touches: &TouchMap, low: u64, high: u64) -> bool
        requires order { low ≤ high }
        requires within { high ≤ length touches.now }
        requires numbers { HaveNumbers self.now.bytes high }
        ensures { FoundAt (MissesWrite self.now) result touches.now low high }
    {
        let mut visible_prefix = VisiblePrefix::none();
        for run in touches.writes.overlapping(low, high) {
            let write = run.value.write();
            if !self.is_among(write, visible_prefix) {
                visible_prefix = self.visible_prefix_for(write, visible_prefix);
                if self.misses_last(run.start, run.end, write, visible_prefix) {
                    return true;
                }
            }
        }
        false
    }

    /// The same where the host reads.
    pub fn misses_some_read(&self, touches: &TouchMap, low: u64, high: u64, is_cached: bool) -> bool
        requires order { low ≤ high }
        requires within { high ≤ length touches.now }
        requires numbers { HaveNumbers self.now.bytes high }
        ensures { FoundAt (MissesRead is_cached self.now) result touches.now low high }
    {
        if is_cached {
            touches.has_stale(low, high)
        } else {
            self.misses_some_write(touches, low, high)
        }
    }

    /// Whether of some byte of a range the last write by the host or the last transition isn't seen.
    fn misses_some_other(&self, touches: &TouchMap, low: u64, high: u64, is_cached: bool) -> bool
        requires order { low ≤ high }
        requires within { high ≤ length touches.now }
        requires numbers { HaveNumbers self.now.bytes high }
        ensures { FoundAt (MissesOther is_cached self.now) result touches.now low high }
    {
        let mut visible_prefix = VisiblePrefix::none();
        for run in touches.others.overlapping(low, high) {
            visible_prefix = self.visible_prefix_for(run.value.host_write, visible_prefix);
            if self.misses_other(run.start, run.end, run.value, is_cached, visible_prefix) {
                return true;
            }
        }
        false
    }

    /// Whether there is no last write, or it is by one of the nodes all of whose writes are seen.
    #[inline(always)]
    fn is_among(&self, last: Option<Spot>, visible_prefix: VisiblePrefix) -> bool
        requires { AreSeen self.now visible_prefix }
        ensures { result ≡ true → (k : ℕ) → IsRefused (SaysSeen self.now k) false last }
    {
        match last {
            Some(write) => visible_prefix.has(write.in_line()),
            None => true,
        }
    }

    /// The first nodes of a line as far as all their writes are seen: of the line of the last write,
    /// where there is one. Most other writes are on the same line.
    #[inline(always)]
    fn visible_prefix_for(&self, last: Option<Spot>, visible_prefix: VisiblePrefix) -> VisiblePrefix
        requires { AreSeen self.now visible_prefix }
        ensures { AreSeen self.now result }
    {
        match last {
            Some(write) if !visible_prefix.is_of(write.line) => {
                self.frontier
                    .visible_prefix(self.new_node, write.line, self.access)
            }
            _ => visible_prefix,
        }
    }

    /// Whether of some byte from `low` on and below `high` the last write by the host or the last
    /// transition, which are the same for all of them, isn't seen.
    fn misses_other(
        &self,
        low: u64,
        high: u64,
        last: &OtherTouches,
        is_cached: bool,
        visible_prefix: VisiblePrefix,
    ) -> bool
        requires numbers { HaveNumbers self.now.bytes high }
        requires visible_prefix { AreSeen self.now visible_prefix }
        ensures { SomeBetween (λ k r. MissesOther is_cached self.now k r (without_reads last.now)) result low high }
    {
        self.misses_host_write(low, high, last, is_cached, visible_prefix)
            || self.misses_write(low, high, last.transition, visible_prefix)
    }

    /// The same of the last write by the host.
    fn misses_host_write(
        &self,
        low: u64,
        high: u64,
        last: &OtherTouches,
        is_cached: bool,
        visible_prefix: VisiblePrefix,
    ) -> bool
        requires numbers { HaveNumbers self.now.bytes high }
        requires visible_prefix { AreSeen self.now visible_prefix }
        ensures { SomeBetween (λ k r. MissesHostWrite is_cached self.now k r (without_reads last.now)) result low high }
    {
        if is_cached {
            self.misses_flush(low, high, last, visible_prefix)
        } else {
            self.misses_write(low, high, last.host_write, visible_prefix)
        }
    }

    /// The same of the last write by the host to cached memory.
    fn misses_flush(
        &self,
        low: u64,
        high: u64,
        last: &OtherTouches,
        visible_prefix: VisiblePrefix,
    ) -> bool
        requires numbers { HaveNumbers self.now.bytes high }
        requires visible_prefix { AreSeen self.now visible_prefix }
        ensures { SomeBetween (λ k r. MissesFlush self.now k r (without_reads last.now)) result low high }
    {
        if last.host_write.is_none() {
            return false;
        }
        match last.flush {
            Some(flush) => self.is_some_unseen(low, high, flush, visible_prefix),
            None => low < high,
        }
    }

    /// Whether the last write by a command is there and is seen, and up to where, and at most to
    /// `high`, this is so.
    pub(crate) fn sees_until(&self, low: u64, high: u64, last: &LastWrite) -> SeenUntil
        requires order { low < high }
        requires numbers { HaveNumbers self.now.bytes high }
        ensures further { low < result.end }
        ensures within { result.end ≤ high }
        ensures seen { (k : ℕ) → low ≤ k → k < result.end → SeesWrite self.now k result.is_seen (with_write_alone last.now) }
    {
        match last.write {
            Some(write) => self.sees_write_until(low, high, write),
            None => SeenUntil {
                end: high,
                is_seen: false,
            },
        }
    }

    /// The same of the write by the node of a spot.
    fn sees_write_until(&self, low: u64, high: u64, write: Spot) -> SeenUntil
        requires order { low < high }
        requires numbers { HaveNumbers self.now.bytes high }
        ensures further { low < result.end }
        ensures within { result.end ≤ high }
        ensures seen { (k : ℕ) → low ≤ k → k < result.end → SaysSeen self.now k result.is_seen write }
    {
        let access = self.access;
        let run = self.bytes.units(low, high);
        let seen = self.frontier.seen_until(
            self.new_node,
            write.in_line(),
            write.number,
            run.units,
            run.low,
            run.high,
            access,
        );
        SeenUntil {
            end: self.bytes.before_unit(low, high, seen.end),
            is_seen: seen.is_seen,
        }
    }

    /// Whether of some byte from `low` on and below `high` the last write by a command, which is the
    /// same for all of them, isn't seen. Most are by one of the first nodes of its line.
    #[inline(always)]
    fn misses_last(
        &self,
        low: u64,
        high: u64,
        last: Option<Spot>,
        visible_prefix: VisiblePrefix,
    ) -> bool
        requires numbers { HaveNumbers self.now.bytes high }
        requires visible_prefix { AreSeen self.now visible_prefix }
        ensures { SomeBetween (λ k r. IsRefused (SaysSeen self.now k) r last) result low high }
    {
        !self.is_among(last, visible_prefix) && self.misses_write(low, high, last, visible_prefix)
    }

    /// Whether of some byte from `low` on and below `high` a write, which is the same for all of them,
    /// isn't seen.
    fn misses_write(
        &self,
        low: u64,
        high: u64,
        last: Option<Spot>,
        visible_prefix: VisiblePrefix,
    ) -> bool
        requires numbers { HaveNumbers self.now.bytes high }
        requires visible_prefix { AreSeen self.now visible_prefix }
        ensures { SomeBetween (λ k r. IsRefused (SaysSeen self.now k) r last) result low high }
    {
        match last {
            Some(write) => self.is_some_unseen(low, high, write, visible_prefix),
            None => false,
        }
    }

    /// Whether the write of some byte by the node of a spot isn't seen.
    fn is_some_unseen(
        &self,
        low: u64,
        high: u64,
        write: Spot,
        visible_prefix: VisiblePrefix,
    ) -> bool
        requires numbers { HaveNumbers self.now.bytes high }
        requires visible_prefix { AreSeen self.now visible_prefix }
        ensures { SomeBetween (λ k r. SaysSeen self.now k (not r) write) result low high }
    {
        let spot = write.in_line();
        if low >= high || visible_prefix.has(spot) {
            return false;
        }
        let from = write.number;
        let run = self.bytes.units(low, high);
        let unseen = self.frontier.first_unseen(
            self.new_node,
            spot,
            from,
            run.units,
            run.low,
            run.high,
            self.access,
        );
        unseen.is_some()
    }
}
