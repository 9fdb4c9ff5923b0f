ghost use Rattle.std.specs.Prelude.{◌≡◌, ◌≤◌, ◌<◌, ◌∷◌, [], ℕ, false, Some, Ok, IfOk, List};
ghost use Rattle.std.specs.Option.{option_copied};
ghost use Rattle.std.specs.Fn.{FnReturnsAt};
ghost use Rattle.vk_ranges.specs.Runs.{IsTiling, IsMaximal, after, upto};
ghost use Rattle.vk_ranges.specs.Overlaps.{with_starts, pieces_left};
ghost use Rattle.vk_ranges.specs.Inner.Plans.{Makes, IsKept, runs_of};
ghost use Rattle.vk_ranges.specs.Inner.Edges.{IsClosed, IsEdgeAfter, first_value};
ghost use Rattle.vk_ranges.specs.Inner.Walks.{Walked, IsMapped, Gives};

use crate::after::RunsAfter;
use crate::changes::{Change, Edge, Plan};
use crate::edges::{Start, edge_after, edge_before, runs_after, start_of};
use crate::runs::Overlapping;
use crate::sorted::SortedRuns;
use crate::value::RangeValue;
use std::alloc::{AllocError, Global};

/// The runs that overlap `low..high`, in order, each cut to it.
pub(crate) fn overlapping<T: RangeValue>(
    runs: &SortedRuns<T>,
    low: u32,
    high: u32,
) -> Overlapping<'_, T>
    ensures left { pieces_left result
        ≡ with_starts low (upto low high (after low runs.now)) }
    ensures start { result.start ≡ low }
    ensures end { result.end ≡ high }
{
    Overlapping {
        runs: runs_after(runs, low),
        start: low,
        end: high,
    }
}

/// The plan that makes one run of `low..high`.
#[inline(always)]
pub(crate) fn plan_of_one<T: RangeValue>(
    alloc: Global,
    runs: &SortedRuns<T>,
    low: u32,
    high: u32,
    value: T,
) -> Result<Plan<T>, AllocError>
    requires some { low < high }
    requires tiling { (len : ℕ) × IsTiling 0 len runs.now × (high ≤ len) }
    requires maximal { IsMaximal runs.now }
    ensures { IfOk result (λ plan. Makes low high runs.now plan ((high, value) ∷ [])) }
{
    let Start {
        left,
        is_end,
        end,
        value: first,
        rest,
    } = start_of(runs, low);
    let near = rest.near();
    let at_low = edge_before(is_end, left, &value)?;
    let Tail { changes, at_high } = merged(alloc, end, first, rest, high, value)?;
    Ok(Plan {
        near,
        at_low,
        changes,
        at_high,
    })
}

/// What becomes of the runs of a range after its low edge.
#[derive(Drop)]
struct Tail<T> {
    changes: Vec<Change<T>>,
    at_high: Edge<T>,
}

/// Makes one run of those that overlap a range, from its first one on.
#[inline(always)]
fn merged<'a, T: RangeValue>(
    alloc: Global,
    first_end: u32,
    first: &'a T,
    rest: RunsAfter<'a, T>,
    high: u32,
    value: T,
) -> Result<Tail<T>, AllocError>
    ensures walked { IfOk result (λ tail. (low len : ℕ)
        → IsTiling low len ((first_end, first.now) ∷ rest.entry) → low < high → high ≤ len
        → Walked low high ((first_end, first.now) ∷ rest.entry) tail.changes.items tail.at_high value) }
    ensures none { IfOk result (λ tail. runs_of tail.changes.items ≡ []) }
{
    if first_end > high {
        return Ok(tail_within(alloc, first, value));
    }
    let mut changes = Vec::new(alloc);
    let mut end = first_end;
    let mut here = first;
    for (next_end, next) in rest {
        if end >= high {
            let at_high = last_edge(end, here, Some(next), high, value);
            return Ok(Tail { changes, at_high });
        }
        changes.push(Change { end, value: None })?;
        end = next_end;
        here = next;
    }
    let at_high = last_edge(end, here, None, high, value);
    Ok(Tail { changes, at_high })
}

/// The tail of a range that ends within its first run.
#[inline(always)]
fn tail_within<T: RangeValue>(alloc: Global, here: &T, last: T) -> Tail<T>
    ensures none { result.changes.items ≡ [] }
    ensures edge { IsEdgeAfter false (Some here.now) last result.at_high }
{
    Tail {
        changes: Vec::new(alloc),
        at_high: edge_after(false, Some(here), last),
    }
}

/// What becomes of the high edge of a range, which is in the run that ends at `end` or ends it.
fn last_edge<'a, T: RangeValue>(
    end: u32,
    here: &'a T,
    next: Option<&'a T>,
    high: u32,
    last: T,
) -> Edge<T>
    ensures { (rest : List (ℕ × T)) → high ≤ end → option_copied next.entry ≡ first_value rest
        → IsClosed high (end, here.now) rest last result }
{
    if end == high {
        return edge_after(true, next, last);
    }
    edge_after(false, Some(here), last)
}

/// The plan that gives each run of `low..high` what `f` answers for its value.
pub(crate) fn plan_of_each<T: RangeValue, F: Fn(&T) -> Result<T, AllocError>>(
    alloc: Global,
    runs: &SortedRuns<T>,
    low: u32,
    high: u32,
    f: F,
) -> Result<Plan<T>, AllocError>
    requires callable { F.IsAlwaysCallable f }
    requires some { low < high }
    requires tiling { (len : ℕ) × IsTiling 0 len runs.now × (high ≤ len) }
    requires maximal { IsMaximal runs.now }
    ensures { IfOk result (λ plan. (news : List (ℕ × T))
        × Makes low high runs.now plan news
        × ((index : ℕ) → low ≤ index → index < high
        → Gives (λ before after. FnReturnsAt F.Fn f before (Ok after))
        runs.now news index)) }
{
    let Start {
        left,
        is_end,
        end,
        value,
        rest,
    } = start_of(runs, low);
    let near = rest.near();
    let first = f(value)?;
    let at_low = edge_before(is_end, left, &first)?;
    let Tail { changes, at_high } = mapped(alloc, end, value, rest, high, first, f)?;
    Ok(Plan {
        near,
        at_low,
        changes,
        at_high,
    })
}

/// Gives the runs that overlap a range what `f` answers, from its first one on, which has an answer.
fn mapped<'a, T: RangeValue, F: Fn(&T) -> Result<T, AllocError>>(
    alloc: Global,
    first_end: u32,
    first: &'a T,
    rest: RunsAfter<'a, T>,
    high: u32,
    answer: T,
    f: F,
) -> Result<Tail<T>, AllocError>
    requires callable { F.IsAlwaysCallable f }
    requires given { FnReturnsAt F.Fn f first.now (Ok answer) }
    ensures { IfOk result (λ tail. (low len : ℕ)
        → IsTiling low len ((first_end, first.now) ∷ rest.entry) → low < high → high ≤ len
        → IsMapped (λ before after. FnReturnsAt F.Fn f before (Ok after)) low high
        ((first_end, first.now) ∷ rest.entry) tail.changes.items tail.at_high answer) }
{
    if first_end > high {
        return Ok(tail_within(alloc, first, answer));
    }
    let mut changes = Vec::new(alloc);
    let mut end = first_end;
    let mut here = first;
    let mut value = answer;
    for (next_end, next) in rest {
        if end >= high {
            let at_high = last_edge(end, here, Some(next), high, value);
            return Ok(Tail { changes, at_high });
        }
        let next_value = f(next)?;
        changes.push(kept_before(end, value, &next_value))?;
        end = next_end;
        here = next;
        value = next_value;
    }
    let at_high = last_edge(end, here, None, high, value);
    Ok(Tail { changes, at_high })
}

/// What becomes of a run before one with another value.
fn kept_before<T: RangeValue>(end: u32, value: T, next: &T) -> Change<T>
    ensures end { result.end ≡ end }
    ensures kept { IsKept value next.now result.value }
{
    if value.is_same(next) {
        Change { end, value: None }
    } else {
        Change {
            end,
            value: Some(value),
        }
    }
}
