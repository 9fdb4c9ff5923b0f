ghost use Rattle.std.specs.Prelude.{◌≡◌};

use std::marker::Model;

/// An image layout by its number, as `VkImageLayout`. A trace may name any number: which of them are
/// known is the matter of a rule. Contracts see the number.
#[derive(Clone, Copy, PartialEq, Eq, Debug)]
pub struct Layout {
    code: u32,
}

impl Model for Layout {
    ghost use Rattle.std.specs.Prelude.{ℕ};

    ghost Value = { ℕ };

    ghost view = { λ layout. layout.code };

    ghost inverse = { λ code. record { code = code } };
}

impl Layout {
    /// `VK_IMAGE_LAYOUT_UNDEFINED`: the contents are undefined.
    pub const UNDEFINED: Layout = Layout { code: 0 };

    /// `VK_IMAGE_LAYOUT_GENERAL`: for all uses.
    pub const GENERAL: Layout = Layout { code: 1 };

    /// `VK_IMAGE_LAYOUT_TRANSFER_SRC_OPTIMAL`: for sources of copies.
    pub const TRANSFER_SRC_OPTIMAL: Layout = Layout { code: 6 };

    /// `VK_IMAGE_LAYOUT_TRANSFER_DST_OPTIMAL`: for destinations of clears and copies.
    pub const TRANSFER_DST_OPTIMAL: Layout = Layout { code: 7 };

    /// The layout of a number.
    pub fn new(code: u32) -> Layout
        ensures { result ≡ code }
    {
        Layout { code }
    }

    /// Its number.
    pub fn code(self) -> u32
        ensures { result ≡ self }
    {
        self.code
    }
}

/// The texel formats of the profile, as `VkFormat`; all are unsigned integers.
#[derive(Clone, Copy, PartialEq, Eq, Debug)]
pub enum Format {
    /// `VK_FORMAT_R8_UINT`, 1 byte.
    R8Uint,
    /// `VK_FORMAT_R8G8_UINT`, 2 bytes.
    R8G8Uint,
    /// `VK_FORMAT_R8G8B8A8_UINT`, 4 bytes.
    R8G8B8A8Uint,
    /// `VK_FORMAT_R16_UINT`, 2 bytes.
    R16Uint,
    /// `VK_FORMAT_R32_UINT`, 4 bytes.
    R32Uint,
    /// `VK_FORMAT_R32G32_UINT`, 8 bytes.
    R32G32Uint,
    /// `VK_FORMAT_R32G32B32A32_UINT`, 16 bytes.
    R32G32B32A32Uint,
}
