ghost use Rattle.std.specs.Prelude.{◌≡◌, ◌≤◌, ◌<◌, ◌∷◌, [], ℕ, Ok, OnOk, OnErr, List};
ghost use Rattle.std.specs.Fn.{FnReturnsAt};
ghost use Rattle.vk_ranges.specs.Runs.{IsTiling, IsMaximal};
ghost use Rattle.vk_ranges.specs.Inner.Plans.{IsRewritten};
ghost use Rattle.vk_ranges.specs.Inner.Walks.{Gives};

use crate::plan::carry_out;
use crate::planning::{plan_of_each, plan_of_one};
use crate::sorted::SortedRuns;
use crate::value::RangeValue;
use std::alloc::{AllocError, Global};

/// Makes one run of `low..high`, and keeps all else. An error, for want of memory, leaves the runs
/// as they were.
#[inline(always)]
pub(crate) fn assign_runs<T: RangeValue>(
    alloc: Global,
    runs: &mut SortedRuns<T>,
    low: u32,
    high: u32,
    value: T,
) -> Result<(), AllocError>
    requires some { low < high }
    requires tiling { (len : ℕ) × IsTiling 0 len runs.old × (high ≤ len) }
    requires maximal { IsMaximal runs.old }
    ensures ok { OnOk result ((len : ℕ) → IsTiling 0 len runs.old → high ≤ len
        → IsRewritten low high len runs.old runs.new ((high, value) ∷ [])) }
    ensures err { OnErr result (runs.new ≡ runs.old) }
{
    let plan = plan_of_one(alloc, runs, low, high, value)?;
    carry_out(runs, low, high, plan)
}

/// Gives each run of `low..high` what `f` answers for its value, and keeps all else. An error, of
/// `f` or for want of memory, leaves the runs as they were.
pub(crate) fn update_runs<T: RangeValue, F: Fn(&T) -> Result<T, AllocError>>(
    alloc: Global,
    runs: &mut SortedRuns<T>,
    low: u32,
    high: u32,
    f: F,
) -> Result<(), AllocError>
    requires callable { F.IsAlwaysCallable f }
    requires some { low < high }
    requires tiling { (len : ℕ) × IsTiling 0 len runs.old × (high ≤ len) }
    requires maximal { IsMaximal runs.old }
    ensures ok { OnOk result ((news : List (ℕ × T))
        × ((len : ℕ) → IsTiling 0 len runs.old → high ≤ len
        → IsRewritten low high len runs.old runs.new news)
        × ((index : ℕ) → low ≤ index → index < high
        → Gives (λ before after. FnReturnsAt F.Fn f before (Ok after))
        runs.old news index)) }
    ensures err { OnErr result (runs.new ≡ runs.old) }
{
    let plan = plan_of_each(alloc, runs, low, high, f)?;
    carry_out(runs, low, high, plan)
}
