ghost use Rattle.std.specs.Prelude.{◌≡◌, ◌++◌, nat_eq, take, IfOk};
ghost use Rattle.std.specs.List.Sorted.{IsNonDecreasing};
ghost use Rattle.vk_model.specs.Basics.{some_pair, among};

use std::alloc::{AllocError, Global};

/// Whether an id is twice in two lists, in one of them or in both. The only error is want of
/// memory.
pub fn some_ids_meet(alloc: Global, ids: &[u32], others: &[u32]) -> Result<bool, AllocError>
    ensures { IfOk result (λ met. met ≡ some_pair nat_eq (ids.now ++ others.now)) }
{
    let mut all = Vec::from_slice(alloc, ids)?;
    all.extend_from_slice(others)?;
    all.sort_unstable();
    Ok(has_twice(all.as_slice()))
}

/// Whether an id is twice among sorted ones. It is then beside itself.
fn has_twice(sorted: &[u32]) -> bool
    requires { IsNonDecreasing sorted.now }
    ensures { result ≡ some_pair nat_eq sorted.now }
{
    let mut rest = sorted;
    while let [first, later @ ..] = rest {
        if begins_with(later, *first) {
            return true;
        }
        rest = later;
    }
    false
}

fn begins_with(ids: &[u32], id: u32) -> bool
    ensures { result ≡ among id (take 1 ids.now) }
{
    match ids {
        [first, ..] => id == *first,
        [] => false,
    }
}
