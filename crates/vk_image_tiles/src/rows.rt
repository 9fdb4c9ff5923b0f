ghost use Rattle.std.specs.Prelude.{◌≡◌, ◌≢◌, ◌≤◌, ◌<◌, ◌+◌, ◌*◌, ◌/◌, ◌%◌, IfSome, IfNone};
ghost use Rattle.vk_model.specs.declared.resource.Kind.TheVariants as kind;
ghost use Rattle.vk_model.specs.Memory.Addresses.{number_in_tile};
ghost use Rattle.vk_image_tiles.specs.Rows.{ArePairs, IsRun, place_in};

use std::marker::Model;
use vk_model::Kind;

/// Texels of a row that lie one after another.
#[derive(Clone, Copy, Debug, PartialEq, Eq)]
pub struct Run {
    /// The first byte of the first of them, counted from the image's.
    pub at: u64,
    /// How many they are.
    pub texels: u32,
}

/// A row of texels of a level and a layer: where each of them lies. `Shape::row` makes it.
/// Contracts see its first place, the bytes of a texel and the tiling.
#[derive(Clone, Copy, Debug, PartialEq, Eq)]
pub struct Row {
    first: u64,
    texel: u64,
    tiling: Kind,
}

impl Model for Row {
    ghost use Rattle.std.specs.Prelude.{◌≤◌, ◌<◌};
    ghost use Rattle.vk_image_tiles.specs.Rows.{TexelRow};

    ghost Value = { TexelRow };

    ghost view = { λ r. record { first = r.first; texel = r.texel; tiling = r.tiling } };

    ghost invariant = { λ r. (r.first ≤ 67108864) × (0 < r.texel) × (r.texel ≤ 16) };

    ghost inverse = { λ v. record { first = v.first; texel = v.texel; tiling = v.tiling } };
}

impl Row {
    /// The row whose first texel is at a place, with texels of some bytes.
    pub(crate) fn new(first: u64, texel: u64, tiling: Kind) -> Row
        requires within { first ≤ 67108864 }
        requires some { 0 < texel }
        requires few { texel ≤ 16 }
        ensures { result ≡ record { first = first; texel = texel; tiling = tiling } }
    {
        Row {
            first,
            texel,
            tiling,
        }
    }

    /// The first byte of texel `x`, counted from the image's.
    pub fn address(&self, x: u32) -> u64
        ensures { result ≡ place_in self.now x }
    {
        let texels = match self.tiling {
            Kind::Linear => u64::from(x),
            Kind::Optimal => u64::from(x / 8) * 64 + number_in_tile(x, 0),
        };
        self.first + texels * self.texel
    }

    /// From texel `x` on and before `end`, the most texels that lie one after another: all of them
    /// in a linear image, two at most in an optimal one.
    pub fn run(&self, x: u32, end: u32) -> Run
        requires { x < end }
        ensures { IsRun self.now x end result }
    {
        let texels = match self.tiling {
            Kind::Linear => end - x,
            Kind::Optimal if x % 2 == 0 && end - x > 1 => 2,
            Kind::Optimal => 1,
        };
        Run {
            at: self.address(x),
            texels,
        }
    }

    /// Of the eight texels from `x` on, which lie together two by two, the first byte of each pair,
    /// counted from the image's. In an optimal image they are one row of a tile, or `None`.
    pub fn pairs(&self, x: u32) -> Option<[u64; 4]>
        ensures pairs { IfSome result (ArePairs (place_in self.now) self.now.texel x) }
        ensures none { IfNone result ((self.now.tiling ≡ kind.Optimal) × (x % 8 ≢ 0)) }
    {
        let at = self.address(x);
        let texel = self.texel;
        match self.tiling {
            Kind::Linear => Some([at, at + 2 * texel, at + 4 * texel, at + 6 * texel]),
            Kind::Optimal if x % 8 == 0 => {
                Some([at, at + 4 * texel, at + 16 * texel, at + 20 * texel])
            }
            Kind::Optimal => None,
        }
    }
}

/// The number of texel (x, y) in its tile of 8 by 8: the bits x0, y0, x1, y1, x2, y2, the lowest
/// first.
pub fn number_in_tile(x: u32, y: u32) -> u64
    ensures number { result ≡ number_in_tile x y }
    ensures within { result < 64 }
{
    let along = x % 2 + x / 2 % 2 * 4 + x / 4 % 2 * 16;
    let down = y % 2 + y / 2 % 2 * 4 + y / 4 % 2 * 16;
    u64::from(along + down * 2)
}
