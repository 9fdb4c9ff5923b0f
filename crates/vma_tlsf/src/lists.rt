ghost use Rattle.std.specs.Prelude.{◌<◌};
ghost use Rattle.vma_tlsf.specs.Inner.Steps.{AreAlike, IsHeld};

use std::alloc::{AllocError, Global};
use vk_nodes::{Change, Filled};

/// The bytes of a unit, which sizes are multiples of (profile).
pub(crate) const UNIT: u64 = 16;

/// The lists of a row, as a power of two.
const COLUMN_BITS: u32 = 4;

/// The lists of a row.
const COLUMNS: usize = 16;

/// The rows of lists: enough for every number of units below 2 to the 64th.
const ROWS: usize = 64;

/// The list of free ranges of so many units: one for each number below 16, and above sixteen for
/// each power of two.
fn list_of(units: u64) -> usize {
    let shift = shift_of(units);
    // (below 1024, so it doesn't wrap)
    (shift as usize * COLUMNS).wrapping_add((units >> shift) as usize)
}

/// The first list all of whose ranges have so many units.
fn sufficing_list(units: u64) -> usize {
    if units < 16 {
        return units as usize;
    }
    let below_next = (1u64 << shift_of(units)) - 1;
    list_of(units.saturating_add(below_next))
}

/// In how many of their lowest bits the sizes in one list may differ. There is no case of its own for
/// small sizes: what is left of free ranges is small or large, and a processor can't foretell which.
fn shift_of(units: u64) -> u32
    ensures { result < 64 }
{
    (units | COLUMNS as u64).ilog2() - COLUMN_BITS
}

/// The heads of the lists of free ranges by size, and which lists have one.
#[derive(Drop)]
pub(crate) struct Lists {
    heads: Vec<Option<u32>>,
    full_rows: u64,
    full_columns: Vec<u32>,
}

impl Lists {
    /// Lists without a range.
    pub(crate) fn new(alloc: Global) -> Result<Lists, AllocError> {
        Ok(Lists {
            heads: vec![in alloc; None; ROWS * COLUMNS]?,
            full_rows: 0,
            full_columns: vec![in alloc; 0; ROWS]?,
        })
    }

    /// The range that went last into a list.
    pub(crate) fn head(&self, list: usize) -> Option<u32> {
        match self.heads.get(list) {
            Some(head) => *head,
            None => None,
        }
    }

    /// The first range of the smallest list all of whose ranges have so many units.
    pub(crate) fn sufficing(&self, units: u64) -> Option<u32> {
        let list = sufficing_list(units);
        let row = list / COLUMNS;
        let column = list % COLUMNS;
        let here = self.columns(row) & (u32::MAX << column);
        if here != 0 {
            return self.head(row * COLUMNS | here.trailing_zeros() as usize);
        }
        if row >= ROWS - 1 {
            return None;
        }
        let above = self.full_rows & (u64::MAX << (row + 1));
        if above == 0 {
            return None;
        }
        let row = above.trailing_zeros() as usize;
        self.head(row * COLUMNS | self.columns(row).trailing_zeros() as usize)
    }

    /// The largest list below this one that has a range.
    pub(crate) fn largest_below(&self, list: usize) -> Option<usize> {
        let row = list / COLUMNS;
        let below = (1u32 << (list % COLUMNS)) - 1;
        let here = self.columns(row) & below;
        if here != 0 {
            return Some(row * COLUMNS | here.ilog2() as usize);
        }
        let rows = if row < ROWS {
            (1u64 << row) - 1
        } else {
            u64::MAX
        };
        let lower = self.full_rows & rows;
        if lower == 0 {
            return None;
        }
        let row = lower.ilog2() as usize;
        let columns = self.columns(row);
        if columns == 0 {
            return None;
        }
        Some(row * COLUMNS | columns.ilog2() as usize)
    }

    /// A number above that of each list.
    pub(crate) fn end(&self) -> usize {
        ROWS * COLUMNS
    }

    /// Puts a free range at the head of its list.
    pub(crate) fn push(&mut self, nodes: &mut Filled, slot: u32)
        requires { IsHeld nodes.old slot }
        ensures { AreAlike nodes.old nodes.new }
    {
        let list = list_of(nodes.get(slot).size / UNIT);
        let next_free = self.head(list);
        // (where there is no next one, this one is written to, and then written over: a branch that
        // can't be foretold would take longer)
        set_previous_free(nodes, next_free.unwrap_or(slot), Some(slot));
        set_first(nodes, slot, next_free);
        self.fill(list, slot);
    }

    /// Takes a free range out of its list.
    pub(crate) fn unlink(&mut self, nodes: &mut Filled, slot: u32)
        requires { IsHeld nodes.old slot }
        ensures { AreAlike nodes.old nodes.new }
    {
        let node = nodes.get(slot);
        match node.previous_free {
            Some(previous) => set_next_free(nodes, previous, node.next_free),
            None => self.set_head(list_of(node.size / UNIT), node.next_free),
        }
        // (as in `push`; where there is no next one, this one keeps what it has)
        set_previous_free(nodes, node.next_free.unwrap_or(slot), node.previous_free);
    }

    fn columns(&self, row: usize) -> u32 {
        match self.full_columns.get(row) {
            Some(columns) => *columns,
            None => 0,
        }
    }

    /// Puts a range at the head of a list.
    fn fill(&mut self, list: usize, slot: u32) {
        if let Some(head) = self.heads.get_mut(list) {
            *head = Some(slot);
        }
        let row = list / COLUMNS;
        if let Some(columns) = self.full_columns.get_mut(row) {
            *columns = *columns | 1 << (list % COLUMNS);
        }
        if row < ROWS {
            self.full_rows = self.full_rows | 1 << row;
        }
    }

    /// Lets a list begin elsewhere, or have no range.
    fn set_head(&mut self, list: usize, next: Option<u32>) {
        if let Some(head) = self.heads.get_mut(list) {
            *head = next;
        }
        let row = list / COLUMNS;
        let Some(columns) = self.full_columns.get_mut(row) else {
            return;
        };
        *columns = *columns & !(u32::from(next.is_none()) << (list % COLUMNS));
        if *columns == 0 && row < ROWS {
            self.full_rows = self.full_rows & !(1 << row);
        }
    }
}

/// Lets a range be the first of its list.
fn set_first(nodes: &mut Filled, slot: u32, next: Option<u32>)
    requires { IsHeld nodes.old slot }
    ensures { AreAlike nodes.old nodes.new }
{
    let previous = None;
    nodes.change(slot, Change::Listed { previous, next });
}

/// Lets a range be before another in its list, where there is such a range.
fn set_next_free(nodes: &mut Filled, slot: u32, next_free: Option<u32>)
    ensures { AreAlike nodes.old nodes.new }
{
    nodes.change_if_held(slot, Change::NextFree(next_free));
}

/// Lets a range be after another in its list, where there is such a range.
fn set_previous_free(nodes: &mut Filled, slot: u32, previous_free: Option<u32>)
    ensures { AreAlike nodes.old nodes.new }
{
    nodes.change_if_held(slot, Change::PreviousFree(previous_free));
}
