/// Where to look first for an end near one that was found. Any numbers are right.
#[derive(Clone, Copy)]
pub(crate) struct Near {
    /// How many chunks come after the one of that end.
    pub(crate) chunks: usize,
    /// How many runs of that chunk come after the one that ends there.
    pub(crate) runs: usize,
}

/// What becomes of the run that ends at an index: its new value, or `None` where it becomes a part
/// of the run after it.
#[derive(Drop)]
pub(crate) struct Change<T> {
    pub(crate) end: u32,
    pub(crate) value: Option<T>,
}

/// What becomes of an edge of a range, at which a run ends or not.
#[derive(Drop)]
pub(crate) enum Edge<T> {
    /// It is as it was.
    Stays,
    /// The run that ends there becomes a part of the run after it.
    Goes,
    /// The run that ends there has this value.
    Becomes(T),
    /// A run with this value ends there, where none did.
    New(T),
}

/// What becomes of the runs of a range: at its two edges, and of the ends between them.
#[derive(Drop)]
pub(crate) struct Plan<T> {
    /// The end of the run that the range begins in.
    pub(crate) near: Near,
    pub(crate) at_low: Edge<T>,
    pub(crate) changes: Vec<Change<T>>,
    pub(crate) at_high: Edge<T>,
}
