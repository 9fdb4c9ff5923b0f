ghost use Rattle.std.specs.Prelude.{◌≡◌, ◌<◌, ◌≤◌, ℕ, OnOk, IfOk, length, slice_get, true, Some};
ghost use Rattle.std.specs.Option.{option_map};
ghost use Rattle.vk_model.specs.World.Effect.{in_atoms};
ghost use Rattle.vk_touches.specs.declared.touches.LastTouches.{LastTouches as AnyTouches};
ghost use Rattle.vk_touches.specs.Bytes.{HaveNumbers};
ghost use Rattle.vk_touches.specs.Conflicts.{SeesWrite};
ghost use Rattle.vk_touches.specs.TouchedRanges.{AreInvalidated, invalidating, sees_at};

use crate::accesses::ResourceAccess;
use crate::map::TouchMap;
use crate::parts::Part;
use crate::writes::{KeptWrite, LastWrite};
use std::alloc::AllocError;
use vk_model::Length;
use vk_ranges::RangeMap;

/// Remembers of the bytes that an invalidation of a range reaches whether it sees their last writes
/// by commands.
pub fn invalidate_touches(
    touches: &mut TouchMap,
    offset: u64,
    size: Length,
    by: &ResourceAccess<'_>,
) -> Result<(), AllocError>
    requires { HaveNumbers by.now.bytes (length touches.old) }
    ensures len { length touches.new ≡ length touches.old }
    ensures values { OnOk result ((k : ℕ) → slice_get touches.new k ≡ option_map (invalidating (in_atoms offset size) (sees_at touches.new) k) (slice_get touches.old k)) }
    ensures answers { OnOk result ((k : ℕ) (t : AnyTouches) → in_atoms offset size k ≡ true → slice_get touches.old k ≡ Some t → SeesWrite by.now k (sees_at touches.new k) t) }
{
    let part = Part::of_atoms(offset, size, touches.len());
    let mut at = part.low;
    while at < part.high {
        at = invalidate_next(touches, at, part.high, by)?;
    }
    Ok(())
}

/// The same of the next bytes in a row, from `low` on and below `high`, that are alike, and which is
/// the byte after them.
fn invalidate_next(
    touches: &mut TouchMap,
    low: u64,
    high: u64,
    by: &ResourceAccess<'_>,
) -> Result<u64, AllocError>
    requires order { low < high }
    requires within { high ≤ length touches.old }
    requires numbers { HaveNumbers by.now.bytes high }
    ensures len { length touches.new ≡ length touches.old }
    ensures next { IfOk result (λ end. AreInvalidated (SeesWrite by.now) touches.old touches.new low end × (end ≤ high)) }
{
    let (last, end) = next_run(&touches.writes, low, high);
    let seen = by.sees_until(low, end, &last);
    let kept = last.invalidated(seen.is_seen)?;
    touches.writes.assign(low, seen.end, kept)?;
    Ok(seen.end)
}

/// What the bytes from `low` on and below an end, which is at most `high`, all remember of writes by
/// commands, and that end.
fn next_run(touches: &RangeMap<KeptWrite>, low: u64, high: u64) -> (LastWrite, u64)
    requires order { low < high }
    requires within { high ≤ length touches.now }
    ensures further { low < result.1 }
    ensures within { result.1 ≤ high }
    ensures values { (k : ℕ) → low ≤ k → k < result.1 → slice_get touches.now k ≡ Some result.0 }
{
    let Some(run) = touches.overlapping(low, high).next() else {
        unreachable!()
    };
    (run.value.last(), run.end)
}
