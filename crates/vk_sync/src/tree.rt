ghost use Rattle.std.specs.Prelude.{◌≡◌, ◌≤◌, ◌<◌, ◌+◌, ◌-◌, ◌*◌, ◌^◌, ◌++◌, ◌∷◌, [], ℕ};
ghost use Rattle.std.specs.Prelude.{length, take, sum, slice_index, slice_set, OnOk, OnErr};
ghost use Rattle.std.specs.Prelude.{List};
ghost use Rattle.vk_sync.specs.Inner.Sums.{AreSumsOf};

use std::alloc::{AllocError, Global};
use std::marker::Model;

/// Of how many numbers a sum is kept.
pub(crate) const FANOUT: usize = 64;

/// A place among numbers: a leaf, and how many come before the place within the leaf.
#[derive(Clone, Copy)]
pub(crate) struct Place {
    pub(crate) leaf: usize,
    pub(crate) rest: u64,
}

/// Numbers, with their sums by 64 and by 4,096. Contracts see the list of the numbers.
///
/// A change costs three sums. A search goes past at most 64 numbers, 64 sums of 64, and the sums of
/// 4,096: of those there are 32 where there are 131,072 numbers. Where numbers become 0 from the
/// first one on, as they do when commands are run one after another, it ends at once.
#[derive(Drop)]
pub(crate) struct SumTree {
    leaves: Vec<u64>,
    groups: Vec<u64>,
    blocks: Vec<u64>,
    total: u64,
    /// All numbers before this one are 0.
    first: usize,
}

impl Model for SumTree {
    ghost use Rattle.std.specs.Prelude.{List, ℕ, ◌≡◌, sum, take};
    ghost use Rattle.vk_sync.specs.Inner.Sums.{IsTree};

    ghost Value = { List ℕ };

    ghost view = { λ t. t.leaves.items };

    ghost invariant = { λ t. IsTree t.leaves.items t.groups.items t.blocks.items t.total
        × (sum (take t.first t.leaves.items) ≡ 0) };
}

impl SumTree {
    /// No numbers.
    pub(crate) fn new(alloc: Global) -> SumTree
        ensures { result ≡ [] }
    {
        SumTree {
            leaves: Vec::new(alloc),
            groups: Vec::new(alloc),
            blocks: Vec::new(alloc),
            total: 0,
            first: 0,
        }
    }

    /// The sum of all numbers.
    pub(crate) fn total(&self) -> u64
        ensures { result ≡ sum self.now }
    {
        self.total
    }

    /// Appends a zero. The only error is want of memory, which leaves the numbers as they were.
    pub(crate) fn push_zero(&mut self) -> Result<(), AllocError>
        ensures ok { OnOk result (self.new ≡ self.old ++ 0 ∷ []) }
        ensures err { OnErr result (self.new ≡ self.old) }
    {
        cover(&mut self.blocks, self.groups.as_slice())?;
        cover(&mut self.groups, self.leaves.as_slice())?;
        self.leaves.push(0)?;
        Ok(())
    }

    /// Adds to a number.
    pub(crate) fn add(&mut self, leaf: usize, amount: u64)
        requires there { leaf < length self.old }
        requires fits { sum self.old + amount < 2 ^ 64 }
        ensures { self.new ≡ slice_set self.old leaf (slice_index self.old leaf + amount) }
    {
        let group = leaf / FANOUT;
        let block = group / FANOUT;
        self.leaves[leaf] += amount;
        self.groups[group] += amount;
        self.blocks[block] += amount;
        self.total += amount;
        self.first = self.first.min(leaf);
    }

    /// Takes from a number.
    pub(crate) fn subtract(&mut self, leaf: usize, amount: u64)
        requires there { leaf < length self.old }
        requires enough { amount ≤ slice_index self.old leaf }
        ensures { self.new ≡ slice_set self.old leaf (slice_index self.old leaf - amount) }
    {
        let group = leaf / FANOUT;
        let block = group / FANOUT;
        self.leaves[leaf] -= amount;
        self.groups[group] -= amount;
        self.blocks[block] -= amount;
        self.total -= amount;
    }

    /// Where no number before one is more than 0, and neither is this one, searches begin after it.
    pub(crate) fn skip_zero(&mut self)
        ensures { self.new ≡ self.old }
    {
        if self.first < self.leaves.len() && self.leaves[self.first] == 0 {
            self.first += 1;
        }
    }

    /// Where a place is, counted through all numbers.
    pub(crate) fn find(&self, place: u64) -> Place
        requires { place < sum self.now }
        ensures there { result.leaf < length self.now }
        ensures before { sum (take result.leaf self.now) + result.rest ≡ place }
        ensures within { result.rest < slice_index self.now result.leaf }
    {
        if self.first < self.leaves.len() && place < self.leaves[self.first] {
            return Place {
                leaf: self.first,
                rest: place,
            };
        }
        let block = walk(self.blocks.as_slice(), 0, place);
        let group = walk(self.groups.as_slice(), block.leaf * FANOUT, block.rest);
        walk(self.leaves.as_slice(), group.leaf * FANOUT, group.rest)
    }
}

/// Makes sure that there is a sum for one more number than there are.
fn cover(sums: &mut Vec<u64>, numbers: &[u64]) -> Result<(), AllocError>
    requires { AreSumsOf (λ x. x) sums.old.items numbers.now }
    ensures sums { AreSumsOf (λ x. x) sums.new.items numbers.now }
    ensures spare { OnOk result (length numbers.now < 64 * length sums.new.items) }
    ensures grows { OnOk result ((above : List ℕ) → AreSumsOf (λ x. x) above sums.old.items
        → length sums.old.items < 64 * length above → AreSumsOf (λ x. x) above sums.new.items) }
    ensures err { OnErr result (sums.new.items ≡ sums.old.items) }
{
    if sums.len() * FANOUT <= numbers.len() {
        sums.push(0)?;
    }
    Ok(())
}

/// Where a place is, counted through the numbers from one on.
fn walk(numbers: &[u64], start: usize, place: u64) -> Place
    requires { sum (take start numbers.now) + place < sum numbers.now }
    ensures there { result.leaf < length numbers.now }
    ensures before { sum (take result.leaf numbers.now) + result.rest
        ≡ sum (take start numbers.now) + place }
    ensures within { result.rest < slice_index numbers.now result.leaf }
{
    let mut leaf = start;
    let mut rest = place;
    while rest >= numbers[leaf] {
        rest -= numbers[leaf];
        leaf += 1;
    }
    Place { leaf, rest }
}
