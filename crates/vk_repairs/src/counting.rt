ghost use Rattle.std.specs.Prelude.{◌≡◌, ◌+◌, IfSome, length, sum_by};
ghost use Rattle.vk_repairs.specs.Starts.{batch_points, entry_points, all_points};

use vk_model::{Batch, Entry};

/// How many points a trace has, once all of its batches are started; none where a `usize` doesn't
/// hold it.
pub fn all_points(trace: &[Entry]) -> Option<usize>
    ensures { IfSome result (λ n. n ≡ all_points trace.now) }
{
    let mut count: usize = 0;
    for entry in trace {
        count = count.checked_add(entry_points(entry)?)?;
    }
    Some(count)
}

fn entry_points(entry: &Entry) -> Option<usize>
    ensures { IfSome result (λ n. n ≡ entry_points entry.now) }
{
    match entry {
        Entry::Submit { batches, .. } => {
            let count = points_of(batches.as_slice())?;
            count.checked_add(1)
        }
        _ => Some(1),
    }
}

fn points_of(batches: &[Batch]) -> Option<usize>
    ensures { IfSome result (λ n. n ≡ sum_by batch_points batches.now) }
{
    let mut count: usize = 0;
    for batch in batches {
        count = count.checked_add(batch_points(batch)?)?;
    }
    Some(count)
}

fn batch_points(batch: &Batch) -> Option<usize>
    ensures { IfSome result (λ n. n ≡ batch_points batch.now) }
{
    let count = batch.waits.len().checked_add(batch.commands.len())?;
    count.checked_add(batch.signals.len())
}
