ghost use Rattle.std.specs.Prelude.{◌≡◌, ◌+◌, ◌*◌, ◌^◌, ◌<◌, ◌≤◌, ℕ, IfSome};
ghost use Rattle.vk_image_tiles.specs.Rows.{ArePairs};
ghost use Rattle.vk_image_transfer.specs.Inner.Lines.{line_place, line_texel, line_first};

use vk_image_tiles::Row;

/// Texels in a line, in a region of memory.
#[derive(Clone, Copy, Debug, PartialEq, Eq)]
pub(crate) enum Line {
    /// Of a buffer: one after another.
    Buffer {
        /// The first byte of the first of them.
        at: u64,
        /// The bytes of each.
        texel: u64,
    },
    /// Of an image: from a texel of a row on.
    Image {
        /// The image's first byte.
        start: u64,
        /// The number of the first of them in the row.
        first: u32,
        /// The row.
        row: Row,
    },
}

/// Texels of a line that lie one after another.
#[derive(Clone, Copy, Debug, PartialEq, Eq)]
pub(crate) struct Together {
    /// The first byte of the first of them.
    pub(crate) at: u64,
    /// How many they are.
    pub(crate) texels: u32,
}

impl Line {
    /// From texel `x` on and before `end`, texels that lie one after another, as many as are known.
    pub(crate) fn together(&self, x: u32, end: u32) -> Together
        requires some { x < end }
        requires numbers { line_first self.now + end < 4294967296 }
        requires place { line_place self.now x < 2 ^ 64 }
        ensures some { 0 < result.texels }
        ensures ends { x + result.texels ≤ end }
        ensures together { (k : ℕ) → k < result.texels → line_place self.now (x + k) ≡ result.at + k * line_texel self.now }
    {
        match *self {
            Line::Buffer { at, texel } => Together {
                at: at + u64::from(x) * texel,
                texels: end - x,
            },
            Line::Image { start, first, row } => {
                let run = row.run(first + x, first + end);
                Together {
                    at: start + run.at,
                    texels: run.texels,
                }
            }
        }
    }

    /// Of the eight texels from `x` on, where they lie together two by two, the first byte of each
    /// pair.
    pub(crate) fn pairs(&self, x: u32) -> Option<[u64; 4]>
        requires numbers { line_first self.now + x + 8 ≤ 4294967296 }
        requires places { (k : ℕ) → k < 8 → line_place self.now (x + k) < 2 ^ 64 }
        ensures { IfSome result (ArePairs (line_place self.now) (line_texel self.now) x) }
    {
        match *self {
            Line::Buffer { at, texel } => {
                let first = at + u64::from(x) * texel;
                Some([
                    first,
                    first + 2 * texel,
                    first + 4 * texel,
                    first + 6 * texel,
                ])
            }
            Line::Image { start, first, row } => {
                let [one, two, three, four] = row.pairs(first + x)?;
                Some([start + one, start + two, start + three, start + four])
            }
        }
    }
}
