ghost use Rattle.std.specs.Prelude.{◌≡◌, ◌<◌, ℕ, None, true, IfOk};
ghost use Rattle.std.specs.Option.{option_copied};
ghost use Rattle.vk_ranges.specs.Runs.{IsTiling, after};
ghost use Rattle.vk_ranges.specs.Inner.Edges.{Begins, IsEdgeBefore, IsEdgeAfter};

use crate::after::RunsAfter;
use crate::changes::Edge;
use crate::sorted::SortedRuns;
use crate::value::RangeValue;
use std::alloc::AllocError;

/// Where a range begins in the runs.
#[derive(Drop)]
pub(crate) struct Start<'a, T> {
    /// The value of the index before the range, if there is one.
    pub(crate) left: Option<&'a T>,
    /// Whether no run goes on from before the range into it.
    pub(crate) is_end: bool,
    /// The end of the run that the first index is in.
    pub(crate) end: u32,
    /// The value of that run.
    pub(crate) value: &'a T,
    /// The runs after that one.
    pub(crate) rest: RunsAfter<'a, T>,
}

/// The runs that end after an index.
#[inline(always)]
pub(crate) fn runs_after<T>(runs: &SortedRuns<T>, index: u32) -> RunsAfter<'_, T>
    ensures { result ≡ after index runs.now }
{
    runs.after(index)
}

/// Where a range that begins at an index begins in the runs.
#[inline(always)]
pub(crate) fn start_of<T: RangeValue>(runs: &SortedRuns<T>, low: u32) -> Start<'_, T>
    requires { (len : ℕ) × IsTiling 0 len runs.now × (low < len) }
    ensures { Begins low runs.now (option_copied result.left) result.is_end (result.end, result.value.now) result.rest }
{
    let mut rest = runs_after(runs, low.saturating_sub(1));
    let Some((end, value)) = rest.next() else {
        unreachable!()
    };
    if low == 0 {
        return Start {
            left: None,
            is_end: true,
            end: end,
            value,
            rest,
        };
    }
    if end != low {
        return Start {
            left: Some(value),
            is_end: false,
            end: end,
            value,
            rest,
        };
    }
    let left = value;
    let Some((end, value)) = rest.next() else {
        unreachable!()
    };
    Start {
        left: Some(left),
        is_end: true,
        end: end,
        value,
        rest,
    }
}

/// What becomes of the edge between a value, if there is one, and the first one of a range.
#[inline(always)]
pub(crate) fn edge_before<T: RangeValue>(
    is_end: bool,
    left: Option<&T>,
    first: &T,
) -> Result<Edge<T>, AllocError>
    requires { left ≡ None → is_end ≡ true }
    ensures { IfOk result (IsEdgeBefore is_end (option_copied left.entry) first.now) }
{
    let Some(left) = left else {
        return Ok(Edge::Stays);
    };
    if left.is_same(first) {
        if is_end {
            return Ok(Edge::Goes);
        }
        return Ok(Edge::Stays);
    }
    if is_end {
        return Ok(Edge::Stays);
    }
    Ok(Edge::New(left.duplicate()?))
}

/// What becomes of the edge between the last value of a range and one after it, if there is one.
#[inline(always)]
pub(crate) fn edge_after<T: RangeValue>(is_end: bool, right: Option<&T>, last: T) -> Edge<T>
    ensures { IsEdgeAfter is_end (option_copied right.entry) last result }
{
    if let Some(right) = right {
        if last.is_same(right) {
            return if is_end { Edge::Goes } else { Edge::Stays };
        }
    }
    if is_end {
        Edge::Becomes(last)
    } else {
        Edge::New(last)
    }
}
