/// Bytes of a memory object that lie together.
#[derive(Clone, Copy, Debug, Drop, PartialEq, Eq)]
pub struct Stretch {
    /// The first of them, counted from the memory object's first.
    pub at: u64,
    /// How many they are.
    pub size: u64,
}
