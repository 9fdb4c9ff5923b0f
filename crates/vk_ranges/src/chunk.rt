ghost use Rattle.std.specs.Prelude.{◌≡◌, ◌≤◌, ◌<◌, length, drop, IsTrue, OnOk, OnErr, IfOk, IfSome};
ghost use Rattle.std.specs.Ordering.{nat_cmp};
ghost use Rattle.std.specs.Map.{remove_entry, set_value};
ghost use Rattle.std.specs.BTreeMap.{is_at, insert_entry};
ghost use Rattle.vk_ranges.specs.Runs.{after};
ghost use Rattle.vk_ranges.specs.Inner.Chunks.{AreSorted, IsGapOf, IsHalved, IsPlaceOf};

use std::alloc::AllocError;

/// Runs that follow each other, in one block of memory.
#[derive(Drop)]
pub(crate) struct Chunk<T> {
    /// The greatest index at which a run of this chunk may end.
    pub(crate) last: u32,
    /// The runs in order, each with the index after its last one.
    pub(crate) runs: Vec<(u32, T)>,
}

/// The number of runs at which a chunk takes no more.
const FULL: usize = 64;

/// How many of the runs end before an index, found at once where that is all but the last ones, of
/// which there is one more than `later`.
#[inline(always)]
fn place_near<T>(runs: &[(u32, T)], later: usize, index: u32) -> usize
    requires { AreSorted runs.now }
    ensures { IsPlaceOf index result runs.now }
{
    let place = runs.len().saturating_sub(later).saturating_sub(1);
    if is_place(runs, place, index) {
        return place;
    }
    count_before(runs, index)
}

/// Whether so many of the runs end before an index.
#[inline(always)]
fn is_place<T>(runs: &[(u32, T)], place: usize, index: u32) -> bool
    requires sorted { AreSorted runs.now }
    requires within { place ≤ length runs.now }
    ensures { IsTrue result → IsPlaceOf index place runs.now }
{
    if place < runs.len() && runs[place].0 < index {
        return false;
    }
    place == 0 || runs[place - 1].0 < index
}

/// How many of the runs end before an index.
fn count_before<T>(runs: &[(u32, T)], index: u32) -> usize
    requires { AreSorted runs.now }
    ensures { IsPlaceOf index result runs.now }
{
    runs.partition_point(|run| run.0 < index)
}

/// How many of the runs end before an index or at it.
#[inline(always)]
fn count_until<T>(runs: &[(u32, T)], index: u32) -> usize
    requires { AreSorted runs.now }
    ensures within { result ≤ length runs.now }
    ensures rest { drop result runs.now ≡ after index runs.now }
{
    runs.partition_point(|run| run.0 <= index)
}

/// The same, looked for from a place on.
fn count_until_from<T>(runs: &[(u32, T)], from: usize, index: u32) -> usize
    requires sorted { AreSorted runs.now }
    requires within { from ≤ length runs.now }
    ensures within { result ≤ length runs.now }
    ensures rest { drop result runs.now ≡ after index runs.now }
{
    let mut place = from;
    while place < runs.len() && runs[place].0 <= index {
        place += 1;
    }
    while place > 0 && runs[place - 1].0 > index {
        place -= 1;
    }
    place
}

impl<T> Chunk<T> {
    /// The runs that end after an index. The ends of the chunk are above `low`.
    #[inline(always)]
    pub(crate) fn after(&self, low: u32, index: u32) -> &[(u32, T)]
        requires { AreSorted self.now.runs.items }
        ensures { result.now ≡ after index self.now.runs.items }
    {
        let count = if self.last == u32::MAX {
            count_until(&self.runs, index)
        } else {
            let from = self.guess(low, index);
            count_until_from(&self.runs, from, index)
        };
        &self.runs[count..]
    }

    /// About how many of the runs end before an index, where the ends lie evenly above `low`. Any
    /// number is right: a walk finds the place from there, and the runs are few.
    #[inline(always)]
    fn guess(&self, low: u32, index: u32) -> usize
        ensures { result ≤ length self.now.runs.items }
    {
        let before = u64::from(index.saturating_sub(low));
        let all = u64::from(self.last.saturating_sub(low)).max(1);
        let runs = self.runs.len();
        let place = before.saturating_mul(runs as u64) / all;
        runs.min(place as usize)
    }
}

impl<T: Drop> Chunk<T> {
    /// Whether a new run needs another chunk.
    pub(crate) fn is_full(&self) -> bool
        ensures { IsTrue result → 1 < length self.now.runs.items }
    {
        self.runs.len() >= FULL
    }

    /// Gives the run that ends at an index the value, which is a new run where none ends there.
    pub(crate) fn insert(&mut self, later: usize, end: u32, value: T) -> Result<(), AllocError>
        requires { AreSorted self.old.runs.items }
        ensures last { self.new.last ≡ self.old.last }
        ensures ok { OnOk result (self.new.runs.items ≡ insert_entry nat_cmp self.old.runs.items end value) }
        ensures err { OnErr result (self.new.runs.items ≡ self.old.runs.items) }
    {
        let place = place_near(&self.runs, later, end);
        if place < self.runs.len() && self.runs[place].0 == end {
            self.runs[place].1 = value;
            return Ok(());
        }
        self.runs.insert(place, (end, value))?;
        Ok(())
    }

    /// How many of the runs end before `low`, where both ends are of this chunk, it takes two more
    /// runs, and none of its own ends from `low` to `high`.
    #[inline(always)]
    pub(crate) fn gap(&self, later: usize, low: u32, high: u32) -> Option<usize>
        requires { AreSorted self.now.runs.items }
        ensures rising { IfSome result (λ place. low < high) }
        ensures within { IfSome result (λ place. high ≤ self.now.last) }
        ensures gap { IfSome result (λ place. IsGapOf low high place self.now.runs.items) }
    {
        if low >= high || high > self.last || self.runs.len() + 1 >= FULL {
            return None;
        }
        let place = place_near(&self.runs, later, low);
        if place < self.runs.len() && self.runs[place].0 <= high {
            return None;
        }
        Some(place)
    }

    /// Puts two new runs in their place, which no run lies in. An error leaves the runs as they were.
    #[inline(always)]
    pub(crate) fn insert_both(
        &mut self,
        place: usize,
        low: (u32, T),
        high: (u32, T),
    ) -> Result<(), AllocError>
        requires rising { low.0 < high.0 }
        requires gap { IsGapOf low.0 high.0 place self.old.runs.items }
        ensures last { self.new.last ≡ self.old.last }
        ensures ok { OnOk result (self.new.runs.items
            ≡ insert_entry nat_cmp (insert_entry nat_cmp self.old.runs.items high.0 high.1) low.0 low.1) }
        ensures err { OnErr result (self.new.runs.items ≡ self.old.runs.items) }
    {
        self.runs.reserve(2)?;
        self.runs.insert(place, high)?;
        self.runs.insert(place, low)?;
        Ok(())
    }

    /// Takes away the run that ends at an index, if there is one.
    pub(crate) fn remove(&mut self, later: usize, end: u32)
        requires { AreSorted self.old.runs.items }
        ensures last { self.new.last ≡ self.old.last }
        ensures runs { self.new.runs.items ≡ remove_entry (is_at (nat_cmp end)) self.old.runs.items }
    {
        let place = place_near(&self.runs, later, end);
        if place < self.runs.len() && self.runs[place].0 == end {
            self.runs.remove(place);
        }
    }

    /// Gives the run that ends at an index another value, if there is one.
    pub(crate) fn set(&mut self, later: usize, end: u32, value: T)
        requires { AreSorted self.old.runs.items }
        ensures last { self.new.last ≡ self.old.last }
        ensures runs { self.new.runs.items ≡ set_value (is_at (nat_cmp end)) self.old.runs.items value }
    {
        let place = place_near(&self.runs, later, end);
        if place < self.runs.len() && self.runs[place].0 == end {
            self.runs[place].1 = value;
        }
    }

    /// Keeps the first half of the runs, and gives the others as a chunk of their own.
    pub(crate) fn halve(&mut self) -> Result<Chunk<T>, AllocError>
        requires { 1 < length self.old.runs.items }
        ensures ok { IfOk result (λ more. IsHalved self.old self.new more) }
        ensures err { OnErr result (self.new ≡ self.old) }
    {
        let half = self.runs.len() / 2;
        let runs = self.runs.split_off(half)?;
        let last = self.last;
        self.last = self.runs[half - 1].0;
        Ok(Chunk { last, runs })
    }
}
