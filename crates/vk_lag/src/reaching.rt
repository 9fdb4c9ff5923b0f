ghost use Rattle.std.specs.Prelude.{◌≡◌, ◌≤◌, ◌++◌, ◌-◌, length, replicate, vec_capacity};

/// Fills up what isn't there yet of the items before `end`; there is room for them.
pub(crate) fn reach<T: Copy>(items: &mut Vec<T>, end: usize, fresh: T)
    requires { end ≤ vec_capacity items.old }
    ensures items { items.new.items ≡ items.old.items ++ replicate (end - length items.old.items) fresh }
    ensures capacity { vec_capacity items.old ≤ vec_capacity items.new }
{
    if items.len() < end && items.resize(end, fresh).is_err() {
        unreachable!()
    }
}
