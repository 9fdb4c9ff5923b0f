ghost use Rattle.std.specs.Prelude.{◌≡◌, IfSome, IsTrue, is_some};
ghost use Rattle.vk_model.specs.Basics.{within};
ghost use Rattle.vk_model.specs.Memory.Suballocation.{ranges_meet};

/// What two parts have in common: the first that both have, along each axis.
#[derive(Clone, Copy)]
pub enum Common {
    /// A byte of a buffer.
    Byte {
        /// The id of the buffer.
        buffer: u32,
        /// The number of the byte.
        at: u128,
    },
    /// A texel of an image.
    Texel {
        /// The id of the image.
        image: u32,
        /// The mip level.
        level: u32,
        /// The array layer.
        layer: u32,
        /// In texels, from the left.
        x: u32,
        /// In texels, from the top.
        y: u32,
    },
    /// A subresource of an image.
    Subresource {
        /// The id of the image.
        image: u32,
        /// The mip level.
        level: u32,
        /// The array layer.
        layer: u32,
    },
    /// An id.
    Id {
        /// The id itself.
        id: u32,
    },
}

/// The first byte that two ranges have in common.
pub fn first_byte(start: u128, size: u64, other_start: u128, other_size: u64) -> Option<u128>
    ensures meet { is_some result ≡ ranges_meet start size other_start other_size }
    ensures in_one { IfSome result (λ at. IsTrue (within start size at)) }
    ensures in_other { IfSome result (λ at. IsTrue (within other_start other_size at)) }
{
    let at = start.max(other_start);
    if at - start < u128::from(size) && at - other_start < u128::from(other_size) {
        Some(at)
    } else {
        None
    }
}

/// The first number that two ranges have in common.
pub fn first_number(start: u32, size: u32, other_start: u32, other_size: u32) -> Option<u32>
    ensures meet { is_some result ≡ ranges_meet start size other_start other_size }
    ensures in_one { IfSome result (λ at. IsTrue (within start size at)) }
    ensures in_other { IfSome result (λ at. IsTrue (within other_start other_size at)) }
{
    let at = start.max(other_start);
    if at - start < size && at - other_start < other_size {
        Some(at)
    } else {
        None
    }
}
