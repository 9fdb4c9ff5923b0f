ghost use Rattle.std.specs.Prelude.{◌≡◌, true, ◌<◌, ◌≤◌, ◌+◌, ◌^◌, ◌==◌, ℕ, IfOk, OnOk, max, length, slice_index_or, if◌then◌else◌, vec_len};
ghost use Rattle.vk_order.specs.NodeViews.{act_of};
ghost use Rattle.vk_order.specs.Inner.Counts.{zero_counts, joined_counts, known_in, known_on, shows_of, made_visible_on, with_clock, with_available, hidden, covers, AreJoinedCounts};

use crate::access::Access;
use crate::act::Act;
use crate::lines::Line;
use std::alloc::AllocError;

/// How many nodes of a line are known to what comes after some nodes, and how: the first ones of the
/// line.
#[derive(Clone, Copy)]
pub struct Counts {
    /// Before it.
    pub clock: u32,
    /// Whose writes are available.
    pub available: u32,
    /// And visible to reads by commands to which the nodes lead.
    pub reads: u32,
    /// And visible to writes by these.
    pub writes: u32,
    /// And visible to reads by the host.
    pub host_reads: u32,
    /// And visible to writes by the host.
    pub host_writes: u32,
}

/// To which accesses an act makes available writes of all bytes visible.
#[derive(Clone, Copy)]
pub struct Shows {
    /// To reads by commands.
    pub reads: bool,
    /// To writes by these.
    pub writes: bool,
    /// To reads by the host.
    pub host_reads: bool,
    /// To writes by the host.
    pub host_writes: bool,
    /// Whether it is a submit, which shows commands what the host wrote.
    pub is_submit: bool,
}

/// What an act makes visible.
pub fn shows_of(act: &Act<'_>) -> Shows
    ensures { result ≡ shows_of (act_of act.now) }
{
    Shows {
        reads: act.makes_all_visible(Access::Read),
        writes: act.makes_all_visible(Access::Write),
        host_reads: act.makes_all_visible_on_host(Access::Read),
        host_writes: act.makes_all_visible_on_host(Access::Write),
        is_submit: act.is_submit(),
    }
}

impl Counts {
    /// Of no node.
    pub fn zero() -> Counts
        ensures { result ≡ zero_counts }
    {
        Counts {
            clock: 0,
            available: 0,
            reads: 0,
            writes: 0,
            host_reads: 0,
            host_writes: 0,
        }
    }

    /// Whether each count is at least as great as that of the other one.
    #[inline(always)]
    fn covers(self, other: Counts) -> bool
        ensures { result ≡ covers self other }
    {
        other.clock <= self.clock
            && other.available <= self.available
            && other.reads <= self.reads
            && other.writes <= self.writes
            && other.host_reads <= self.host_reads
            && other.host_writes <= self.host_writes
    }

    /// The greater one of each two counts.
    #[inline(always)]
    fn joined(self, other: Counts) -> Counts
        ensures { result ≡ joined_counts self other }
    {
        Counts {
            clock: self.clock.max(other.clock),
            available: self.available.max(other.available),
            reads: self.reads.max(other.reads),
            writes: self.writes.max(other.writes),
            host_reads: self.host_reads.max(other.host_reads),
            host_writes: self.host_writes.max(other.host_writes),
        }
    }

    /// Of how many nodes of a line the writes are known: of elements of barriers those before, of
    /// others those available.
    pub fn known(self, line: Line) -> u32
        ensures { result ≡ known_on line self }
    {
        if line.is_of_barriers() {
            self.clock
        } else {
            self.available
        }
    }

    /// The counts for a line after what is made visible.
    pub fn made_visible(self, line: Line, shows: Shows) -> Counts
        ensures { result ≡ made_visible_on shows line self }
    {
        let known = self.known(line);
        let by_host = line.is_of_host() && shows.is_submit;
        Counts {
            clock: self.clock,
            available: self.available,
            reads: if shows.reads || by_host { known } else { 0 },
            writes: if shows.writes || by_host { known } else { 0 },
            host_reads: if shows.host_reads {
                self.host_reads.max(known)
            } else {
                self.host_reads
            },
            host_writes: if shows.host_writes {
                self.host_writes.max(known)
            } else {
                self.host_writes
            },
        }
    }
}

/// The counts at an index.
pub fn counts_at(all: &[Counts], index: usize) -> Counts
    ensures { result ≡ slice_index_or all.now index zero_counts }
{
    match all.get(index) {
        Some(counts) => *counts,
        None => Counts::zero(),
    }
}

/// Of how many nodes of a line the writes are known by the counts at an index.
pub fn known_at(all: &[Counts], index: usize, line: Line) -> u32
    ensures { result ≡ known_in all.now index line }
{
    counts_at(all, index).known(line)
}

/// Makes counts those of what comes after other ones' nodes too.
pub fn join_in(all: &mut Vec<Counts>, other: &[Counts]) -> Result<(), AllocError>
    ensures { OnOk result (AreJoinedCounts all.old.items other.now all.new.items) }
{
    join_shared(all, other);
    take_rest(all, other)?;
    Ok(())
}

/// The same at the indices that both have.
fn join_shared(all: &mut Vec<Counts>, other: &[Counts])
    ensures len { vec_len all.new ≡ vec_len all.old }
    ensures counts { (i : ℕ) → i < vec_len all.old → slice_index_or all.new.items i zero_counts ≡ joined_counts (slice_index_or all.old.items i zero_counts) (slice_index_or other.now i zero_counts) }
{
    for index in 0..all.len().min(other.len()) {
        all[index] = all[index].joined(other[index]);
    }
}

/// Whether counts are those of what comes after other ones' nodes too.
pub fn cover(all: &[Counts], other: &[Counts]) -> bool
    ensures { result ≡ true → AreJoinedCounts other.now all.now all.now }
{
    if all.len() < other.len() {
        return false;
    }
    for index in 0..other.len() {
        if !all[index].covers(other[index]) {
            return false;
        }
    }
    true
}

/// Makes counts the same as other ones.
pub fn copy_in(all: &mut Vec<Counts>, other: &[Counts]) -> Result<(), AllocError>
    ensures { OnOk result (all.new.items ≡ other.now) }
{
    if all.len() == other.len() {
        all.as_mut_slice().copy_from_slice(other);
        return Ok(());
    }
    all.clear();
    all.extend_from_slice(other)?;
    Ok(())
}

/// Adds those of the other ones that are past the end.
fn take_rest(all: &mut Vec<Counts>, other: &[Counts]) -> Result<(), AllocError>
    ensures len { OnOk result (vec_len all.new ≡ max (vec_len all.old) (length other.now)) }
    ensures first { OnOk result ((i : ℕ) → i < vec_len all.old → slice_index_or all.new.items i zero_counts ≡ slice_index_or all.old.items i zero_counts) }
    ensures rest { OnOk result ((i : ℕ) → vec_len all.old ≤ i → i < length other.now → slice_index_or all.new.items i zero_counts ≡ slice_index_or other.now i zero_counts) }
{
    let from = all.len();
    if from < other.len() {
        all.extend_from_slice(&other[from..])?;
    }
    Ok(())
}

/// Puts a clock at an index, up to which the list grows.
pub fn put_clock(all: &mut Vec<Counts>, at: usize, clock: u32) -> Result<(), AllocError>
    requires { at < 2 ^ 63 }
    ensures counts { OnOk result ((i : ℕ) → slice_index_or all.new.items i zero_counts ≡ (if i == at then with_clock (slice_index_or all.old.items at zero_counts) clock else slice_index_or all.old.items i zero_counts)) }
    ensures len { OnOk result (vec_len all.new ≡ max (vec_len all.old) (at + 1)) }
{
    lengthen(all, at + 1)?;
    all[at].clock = clock;
    Ok(())
}

/// The same of what is available.
pub fn put_available(all: &mut Vec<Counts>, at: usize, available: u32) -> Result<(), AllocError>
    requires { at < 2 ^ 63 }
    ensures counts { OnOk result ((i : ℕ) → slice_index_or all.new.items i zero_counts ≡ (if i == at then with_available (slice_index_or all.old.items at zero_counts) available else slice_index_or all.old.items i zero_counts)) }
    ensures len { OnOk result (vec_len all.new ≡ max (vec_len all.old) (at + 1)) }
{
    lengthen(all, at + 1)?;
    all[at].available = available;
    Ok(())
}

/// Makes a list of counts this long at least, with those of no node at the end.
fn lengthen(all: &mut Vec<Counts>, length: usize) -> Result<(), AllocError>
    ensures counts { OnOk result ((i : ℕ) → slice_index_or all.new.items i zero_counts ≡ slice_index_or all.old.items i zero_counts) }
    ensures len { OnOk result (vec_len all.new ≡ max (vec_len all.old) length) }
{
    for _missing in all.len()..length {
        all.push(Counts::zero())?;
    }
    Ok(())
}

/// Makes nothing visible to commands.
pub fn hide(all: &mut Vec<Counts>)
    ensures len { vec_len all.new ≡ vec_len all.old }
    ensures counts { (i : ℕ) → slice_index_or all.new.items i zero_counts ≡ hidden (slice_index_or all.old.items i zero_counts) }
{
    for index in 0..all.len() {
        let counts = all[index];
        all[index] = Counts {
            reads: 0,
            writes: 0,
            ..counts
        };
    }
}
