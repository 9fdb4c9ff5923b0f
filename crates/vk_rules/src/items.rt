/// Which item of a point's lists a number is of. Indices count from 0, in the lists of the command.
#[derive(Clone, Copy)]
pub enum Item {
    /// The only one.
    Only,
    /// What the region of this index reads.
    Source(usize),
    /// What the region of this index writes.
    Destination(usize),
    /// The region of this index.
    Region(usize),
    /// The range of this index.
    Range(usize),
    /// The dependency element of this index.
    Element(usize),
}
