use vk_model::Sequence;

/// What an entry gave.
#[derive(Debug, Drop)]
pub enum Applied {
    /// It was applied, and read nothing.
    Done,
    /// The bytes that the host read.
    Bytes(Sequence<u8>),
    /// Its allocation found no room. Nothing was changed by it.
    NoRoom,
}
