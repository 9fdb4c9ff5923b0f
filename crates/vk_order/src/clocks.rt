ghost use Rattle.std.specs.Prelude.{◌≡◌, slice_index_or};

/// Where a node is in the order.
#[derive(Drop)]
pub struct Stamp {
    /// How many nodes of its line came earlier.
    pub place: u32,
    /// How many nodes of each line are before it, in the order of the lines; none of those that are
    /// left out.
    pub clock: Vec<u32>,
}

/// The count at an index.
pub fn count_at(clock: &[u32], index: usize) -> u32
    ensures { result ≡ slice_index_or clock.now index 0 }
{
    match clock.get(index) {
        Some(count) => *count,
        None => 0,
    }
}
