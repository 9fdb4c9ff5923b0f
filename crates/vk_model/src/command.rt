use crate::layout::Layout;
use crate::masks::{Accesses, Stages};
use crate::sequence::Sequence;

/// A number of bytes, or all to the end (`VK_WHOLE_SIZE`).
#[derive(Clone, Copy, PartialEq, Eq, Debug)]
pub enum Length {
    /// So many bytes.
    Bytes(u64),
    /// All bytes to the end.
    Whole,
}

impl Length {
    ghost use Rattle.std.specs.Prelude.{◌≡◌};
    ghost use Rattle.vk_model.specs.World.ByteWrites.{fill_size};

    /// How many bytes a fill of this length writes from a byte on, in a buffer of `buffer_size` bytes: to
    /// the end only whole words (Vulkan, "Filling Buffers").
    pub fn filled(self, buffer_size: u64, offset: u64) -> u64
        ensures { result ≡ fill_size buffer_size offset self }
    {
        match self {
            Length::Bytes(bytes) => bytes,
            Length::Whole => buffer_size.saturating_sub(offset) / 4 * 4,
        }
    }
}

/// A region of a buffer copy, as `VkBufferCopy2`; all in bytes.
#[derive(Clone, Copy, PartialEq, Eq, Debug)]
pub struct BufferCopy {
    /// Where the region begins in the source.
    pub source_offset: u64,
    /// Where it begins in the destination.
    pub destination_offset: u64,
    /// How many bytes it has.
    pub size: u64,
}

/// A region of a copy between a buffer and an image, as `VkBufferImageCopy2`.
#[derive(Clone, Copy, PartialEq, Eq, Debug)]
pub struct BufferImageCopy {
    /// In bytes.
    pub buffer_offset: u64,
    /// In texels; 0 means the width.
    pub row_length: u32,
    /// In rows; 0 means the height.
    pub image_height: u32,
    /// The mip level.
    pub level: u32,
    /// The first array layer.
    pub first_layer: u32,
    /// How many layers.
    pub layers: u32,
    /// In texels, from the left.
    pub x: u32,
    /// In texels, from the top.
    pub y: u32,
    /// In texels.
    pub width: u32,
    /// In texels.
    pub height: u32,
}

/// A region of an image copy, as `VkImageCopy2`.
#[derive(Clone, Copy, PartialEq, Eq, Debug)]
pub struct ImageCopy {
    /// The mip level that is read.
    pub source_level: u32,
    /// The first array layer that is read.
    pub source_first_layer: u32,
    /// The mip level that is written.
    pub destination_level: u32,
    /// The first array layer that is written.
    pub destination_first_layer: u32,
    /// How many layers.
    pub layers: u32,
    /// Where it is read, in texels from the left.
    pub source_x: u32,
    /// Where it is read, in texels from the top.
    pub source_y: u32,
    /// Where it is written, in texels from the left.
    pub destination_x: u32,
    /// Where it is written, in texels from the top.
    pub destination_y: u32,
    /// In texels.
    pub width: u32,
    /// In texels.
    pub height: u32,
}

/// Levels and layers of an image, as `VkImageSubresourceRange`.
#[derive(Clone, Copy, PartialEq, Eq, Debug)]
pub struct SubresourceRange {
    /// The first mip level.
    pub first_level: u32,
    /// How many levels.
    pub levels: u32,
    /// The first array layer.
    pub first_layer: u32,
    /// How many layers.
    pub layers: u32,
}

/// The two scopes of a dependency, as `VkMemoryBarrier2`.
#[derive(Clone, Copy, PartialEq, Eq, Debug)]
pub struct Dependency {
    /// The stages of the first scope.
    pub source_stages: Stages,
    /// The accesses of the first scope.
    pub source_accesses: Accesses,
    /// The stages of the second scope.
    pub destination_stages: Stages,
    /// The accesses of the second scope.
    pub destination_accesses: Accesses,
}

/// The queue families of an ownership transfer, which is none where the two are equal.
#[derive(Clone, Copy, PartialEq, Eq, Debug)]
pub struct Families {
    /// The family that releases the resource.
    pub source: u32,
    /// The family that acquires it.
    pub destination: u32,
}

/// A dependency on a range of a buffer, as `VkBufferMemoryBarrier2`.
#[derive(Clone, Copy, PartialEq, Eq, Debug)]
pub struct BufferElement {
    /// The two scopes.
    pub dependency: Dependency,
    /// The queue families, equal where the resource stays with its owner.
    pub families: Families,
    /// The id of the buffer.
    pub buffer: u32,
    /// In bytes.
    pub offset: u64,
    /// How many bytes the range has.
    pub size: Length,
}

/// A dependency on subresources of an image, as `VkImageMemoryBarrier2`.
#[derive(Clone, Copy, PartialEq, Eq, Debug)]
pub struct ImageElement {
    /// The two scopes.
    pub dependency: Dependency,
    /// The queue families, equal where the resource stays with its owner.
    pub families: Families,
    /// The id of the image.
    pub image: u32,
    /// The layout before the transition.
    pub old_layout: Layout,
    /// The layout after it; equal layouts are no transition.
    pub new_layout: Layout,
    /// The levels and layers that it is on.
    pub range: SubresourceRange,
}

/// One dependency of a barrier: on all memory, on a range of a buffer, or on a range of an image.
#[derive(Clone, Copy, PartialEq, Eq, Debug)]
pub enum Element {
    /// On all memory.
    Memory(Dependency),
    /// On a range of a buffer.
    Buffer(BufferElement),
    /// On levels and layers of an image.
    Image(ImageElement),
}

/// A transfer or synchronization command of a batch.
#[derive(Debug, Drop)]
pub enum Cmd {
    /// `vkCmdFillBuffer`: a word, little-endian, again and again.
    Fill {
        /// The id of the buffer.
        buffer: u32,
        /// In bytes from the buffer's start.
        offset: u64,
        /// In bytes; to the end, a rest that isn't a whole word is left out.
        size: Length,
        /// The word.
        word: u32,
    },
    /// `vkCmdUpdateBuffer`.
    Update {
        /// The id of the buffer.
        buffer: u32,
        /// In bytes from the buffer's start.
        offset: u64,
        /// The bytes that are written.
        bytes: Sequence<u8>,
    },
    /// `vkCmdCopyBuffer2`.
    Copy {
        /// The id of the resource that is read.
        source: u32,
        /// The id of the resource that is written.
        destination: u32,
        /// The regions, none of which overlaps another's destination.
        regions: Sequence<BufferCopy>,
    },
    /// `vkCmdClearColorImage`, with the four components as they are written.
    Clear {
        /// The id of the image.
        image: u32,
        /// The layout that the image is in.
        layout: Layout,
        /// The four components; one too large for the format keeps its low bits.
        color: [u32; 4],
        /// The levels and layers that are cleared.
        ranges: Sequence<SubresourceRange>,
    },
    /// `vkCmdCopyBufferToImage2`.
    CopyIn {
        /// The id of the buffer.
        buffer: u32,
        /// The id of the image.
        image: u32,
        /// The layout that the image is in.
        layout: Layout,
        /// The regions, none of which overlaps another's destination.
        regions: Sequence<BufferImageCopy>,
    },
    /// `vkCmdCopyImageToBuffer2`.
    CopyOut {
        /// The id of the image.
        image: u32,
        /// The layout that the image is in.
        layout: Layout,
        /// The id of the buffer.
        buffer: u32,
        /// The regions, none of which overlaps another's destination.
        regions: Sequence<BufferImageCopy>,
    },
    /// `vkCmdCopyImage2`.
    CopyImage {
        /// The id of the resource that is read.
        source: u32,
        /// The layout that the source is in.
        source_layout: Layout,
        /// The id of the resource that is written.
        destination: u32,
        /// The layout that the destination is in.
        destination_layout: Layout,
        /// The regions, none of which overlaps another's destination.
        regions: Sequence<ImageCopy>,
    },
    /// `vkCmdPipelineBarrier2`: its memory elements, then those of buffers, then those of images.
    Barrier {
        /// The dependency elements: those on memory, on buffers, on images.
        elements: Sequence<Element>,
    },
    /// `vkCmdSetEvent2`.
    Set {
        /// The id of the event.
        event: u32,
        /// The dependency elements, all on memory.
        elements: Sequence<Dependency>,
    },
    /// `vkCmdWaitEvents2`.
    Await {
        /// The id of the event.
        event: u32,
        /// The dependency elements, all on memory.
        elements: Sequence<Dependency>,
    },
}
