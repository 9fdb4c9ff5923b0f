ghost use Rattle.std.specs.Prelude.{◌≡◌, ℕ};
ghost use Rattle.vk_model.specs.Basics.{within};
ghost use Rattle.vk_model.specs.World.Bytes as world;
ghost use Rattle.vk_model.specs.World.Effect.{in_atoms, in_range};
ghost use Rattle.vk_model.specs.Sync.Seen as seen;
ghost use Rattle.vk_order.specs.NodeViews.{act_of};
ghost use Rattle.vk_order.specs.Bytes.{byte_of};

use crate::access::Access;
use crate::act::Act;
use vk_model::{Element, Entry, Length, SubresourceRange};

/// A byte of a buffer, or of a texel of an image.
#[derive(Clone, Copy)]
pub enum Byte {
    /// One of a buffer.
    Buffer {
        /// The id of the buffer.
        buffer: u32,
        /// How many bytes of the buffer come earlier.
        at: u64,
    },
    /// One of a texel.
    Texel {
        /// The id of the image.
        image: u32,
        /// The mip level.
        level: u32,
        /// The array layer.
        layer: u32,
        /// In texels, from the left.
        x: u32,
        /// In texels, from the top.
        y: u32,
        /// How many bytes of the texel come earlier.
        texel_byte: u32,
    },
}

impl Byte {
    /// The id of the resource that it is of.
    pub fn resource(self) -> u32
        ensures { result ≡ world.resource_at (byte_of self) }
    {
        match self {
            Byte::Buffer { buffer, .. } => buffer,
            Byte::Texel { image, .. } => image,
        }
    }
}

/// An access of a byte.
#[derive(Clone, Copy)]
pub struct ByteAccess {
    /// The byte.
    pub byte: Byte,
    /// How it is accessed.
    pub access: Access,
    /// Whether the host reaches the byte's memory through a cache, which flushes and invalidations
    /// serve.
    pub is_cached: bool,
}

/// Whether there are this many numbers from the first on, and one is this.
fn within(first: u64, count: u64, number: u64) -> bool
    ensures { result ≡ within first count number }
{
    first <= number && number - first < count
}

/// Whether a range of a buffer has a byte.
fn has_byte(offset: u64, size: Length, at: u64) -> bool
    ensures { result ≡ seen.has_byte offset size at }
{
    match size {
        Length::Bytes(bytes) => within(offset, bytes, at),
        Length::Whole => offset <= at,
    }
}

/// Whether levels and layers of an image have a byte.
fn in_range(image: u32, range: &SubresourceRange, byte: Byte) -> bool
    ensures { result ≡ in_range image range.now (byte_of byte) }
{
    match byte {
        Byte::Buffer { .. } => false,
        Byte::Texel {
            image: own,
            level,
            layer,
            ..
        } => {
            image == own
                && within(range.first_level.into(), range.levels.into(), level.into())
                && within(range.first_layer.into(), range.layers.into(), layer.into())
        }
    }
}

/// Whether a byte is in the range of a dependency element.
pub fn covers(element: &Element, byte: Byte) -> bool
    ensures { result ≡ seen.covers element.now (byte_of byte) }
{
    match element {
        Element::Memory(_) => true,
        Element::Buffer(range) => match byte {
            Byte::Buffer { buffer, at } => {
                range.buffer == buffer && has_byte(range.offset, range.size, at)
            }
            Byte::Texel { .. } => false,
        },
        Element::Image(range) => in_range(range.image, &range.range, byte),
    }
}

/// Whether the atoms of 64 bytes that a range reaches have a byte.
fn in_atoms(offset: u64, size: Length, at: u64) -> bool
    ensures { result ≡ in_atoms offset size at }
{
    match size {
        Length::Bytes(0) => false,
        Length::Bytes(bytes) => {
            let last = offset.saturating_add(bytes - 1);
            offset / 64 <= at / 64 && at / 64 <= last / 64
        }
        Length::Whole => offset / 64 <= at / 64,
    }
}

/// Whether a flush or an invalidation of a range of a buffer reaches a byte.
fn reaches(buffer: u32, offset: u64, size: Length, byte: Byte) -> bool
    ensures { result ≡ Rattle.vk_model.specs.World.Effect.reaches buffer offset size (byte_of byte) }
{
    match byte {
        Byte::Buffer { buffer: own, at } => buffer == own && in_atoms(offset, size, at),
        Byte::Texel { .. } => false,
    }
}

impl Act<'_> {
    /// Whether it flushes a byte.
    pub fn flushes(&self, byte: Byte) -> bool
        ensures { result ≡ seen.flushes (act_of self.now) (byte_of byte) }
    {
        match self {
            Act::Hosts(
                Entry::Flush {
                    buffer,
                    offset,
                    size,
                },
            ) => reaches(*buffer, *offset, *size, byte),
            _ => false,
        }
    }

    /// Whether it invalidates a byte.
    pub fn invalidates(&self, byte: Byte) -> bool
        ensures { result ≡ seen.invalidates (act_of self.now) (byte_of byte) }
    {
        match self {
            Act::Hosts(
                Entry::Invalidate {
                    buffer,
                    offset,
                    size,
                },
            ) => reaches(*buffer, *offset, *size, byte),
            _ => false,
        }
    }
}
