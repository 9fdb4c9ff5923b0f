/// Where a level of a layer of an image lies in its memory, as `VkSubresourceLayout`.
#[derive(Clone, Copy, PartialEq, Eq, Debug)]
pub struct SubresourceLayout {
    /// Its first byte, counted from the image's.
    pub offset: u64,
    /// In bytes.
    pub size: u64,
    /// The bytes from one row to the next; 0 where the texels lie in tiles.
    pub row_pitch: u64,
}
