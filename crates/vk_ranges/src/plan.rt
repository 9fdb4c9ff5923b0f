ghost use Rattle.std.specs.Prelude.{◌≡◌, OnOk, OnErr};
ghost use Rattle.std.specs.Ordering.{nat_cmp};
ghost use Rattle.std.specs.BTreeMap.{insert_entry};
ghost use Rattle.vk_ranges.specs.declared.changes.Edge.TheVariants.{New};
ghost use Rattle.vk_ranges.specs.Inner.Plans.{applied, edged, both_edged, carried_out, CanBeUndone};

use crate::changes::{Change, Edge, Near, Plan};
use crate::sorted::SortedRuns;
use crate::value::RangeValue;
use std::alloc::AllocError;

/// Carries out a plan for the range `low..high`. An error leaves the runs as they were.
#[inline(always)]
pub(crate) fn carry_out<T: RangeValue>(
    runs: &mut SortedRuns<T>,
    low: u32,
    high: u32,
    plan: Plan<T>,
) -> Result<(), AllocError>
    requires { CanBeUndone high plan.at_high runs.old }
    ensures ok { OnOk result (runs.new ≡ carried_out low high plan runs.old) }
    ensures err { OnErr result (runs.new ≡ runs.old) }
{
    let Plan {
        near,
        at_low,
        changes,
        at_high,
    } = plan;
    change_edges(runs, near, low, at_low, high, at_high)?;
    apply(runs, near, changes);
    Ok(())
}

/// Changes both edges of a range, new ends first: only they can want memory.
#[inline(always)]
fn change_edges<T: RangeValue>(
    runs: &mut SortedRuns<T>,
    near: Near,
    low: u32,
    at_low: Edge<T>,
    high: u32,
    at_high: Edge<T>,
) -> Result<(), AllocError>
    requires { CanBeUndone high at_high runs.old }
    ensures ok { OnOk result (runs.new ≡ both_edged low at_low high at_high runs.old) }
    ensures err { OnErr result (runs.new ≡ runs.old) }
{
    match at_high {
        Edge::Stays => change_edge(runs, near, low, at_low),
        Edge::Goes => {
            change_edge(runs, near, low, at_low)?;
            runs.remove(near, high);
            Ok(())
        }
        Edge::Becomes(value) => {
            change_edge(runs, near, low, at_low)?;
            runs.set(near, high, value);
            Ok(())
        }
        Edge::New(value) => insert_and_change(runs, near, low, at_low, high, value),
    }
}

/// Makes an index the end of a run, and changes an edge before it.
#[inline(always)]
fn insert_and_change<T: RangeValue>(
    runs: &mut SortedRuns<T>,
    near: Near,
    low: u32,
    at_low: Edge<T>,
    high: u32,
    value: T,
) -> Result<(), AllocError>
    requires { CanBeUndone high (New value) runs.old }
    ensures ok { OnOk result (runs.new ≡ edged low at_low (insert_entry nat_cmp runs.old high value)) }
    ensures err { OnErr result (runs.new ≡ runs.old) }
{
    match at_low {
        Edge::Stays => runs.insert(near, high, value),
        Edge::Goes => {
            runs.insert(near, high, value)?;
            runs.remove(near, low);
            Ok(())
        }
        Edge::Becomes(low_value) => {
            runs.insert(near, high, value)?;
            runs.set(near, low, low_value);
            Ok(())
        }
        Edge::New(low_value) => runs.insert_both(near, (low, low_value), (high, value)),
    }
}

/// Changes an edge. An error leaves the runs as they were.
fn change_edge<T: RangeValue>(
    runs: &mut SortedRuns<T>,
    near: Near,
    at: u32,
    edge: Edge<T>,
) -> Result<(), AllocError>
    ensures ok { OnOk result (runs.new ≡ edged at edge runs.old) }
    ensures err { OnErr result (runs.new ≡ runs.old) }
{
    match edge {
        Edge::Stays => Ok(()),
        Edge::Goes => {
            runs.remove(near, at);
            Ok(())
        }
        Edge::Becomes(value) => {
            runs.set(near, at, value);
            Ok(())
        }
        Edge::New(value) => {
            runs.insert(near, at, value)?;
            Ok(())
        }
    }
}

/// Gives each end that changes speak of its new value, or takes it away.
fn apply<T: RangeValue>(runs: &mut SortedRuns<T>, near: Near, changes: Vec<Change<T>>)
    ensures { runs.new ≡ applied changes.items runs.old }
{
    for change in changes {
        let Change { end, value } = change;
        match value {
            Some(value) => runs.set(near, end, value),
            None => {
                runs.remove(near, end);
            }
        }
    }
}
