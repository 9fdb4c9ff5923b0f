ghost use Rattle.std.specs.Prelude.{◌≡◌, ◌+◌, ◌^◌, ◌<◌, ◌∷◌, []};
ghost use Rattle.vk_image_transfer.specs.Inner.Lines.{line_place, LineApart, LineFits};
ghost use Rattle.vk_image_transfer.specs.Stretches.{IsNext, row_left};

use crate::lines::Line;
use std::marker::Model;
use vk_transfer::Stretch;

/// The bytes of a memory object that a piece writes: those of a row of texels, or of one stretch. Of
/// these some are left to be walked, in stretches that each lie together. It takes no memory.
/// Contracts see the bytes that are left.
#[derive(Debug, Drop)]
pub struct RowStretches {
    line: Line,
    /// The first texel of those that are left.
    x: u32,
    /// How many texels the row has.
    texels: u32,
    /// The bytes of each.
    texel: u64,
}

impl Model for RowStretches {
    ghost use Rattle.std.specs.Prelude.{◌-◌, List};
    ghost use Rattle.vk_image_transfer.specs.Inner.Lines.{line_place, IsWalked};
    ghost use Rattle.vk_image_transfer.specs.Stretches.{row_left};
    ghost use Rattle.vk_transfer.specs.declared.stretches.Stretch.{Stretch as Bytes};

    ghost Value = { List Bytes };

    ghost view = { λ r. row_left (line_place r.line) r.texel r.x (r.texels - r.x) };

    ghost invariant = { λ r. IsWalked r.line r.x r.texels r.texel };
}

impl RowStretches {
    /// The bytes of the first texels of a line.
    pub(crate) fn new(line: Line, texels: u32, texel: u64) -> RowStretches
        requires some { 0 < texel }
        requires fits { LineFits line texels texel 18446744073709551615 }
        requires apart { LineApart line texels texel }
        ensures { result ≡ row_left (line_place line) texel 0 texels }
    {
        RowStretches {
            line,
            x: 0,
            texels,
            texel,
        }
    }

    /// The bytes of one stretch.
    pub fn one(stretch: Stretch) -> RowStretches
        requires some { 0 < stretch.size }
        requires end { stretch.at + stretch.size < 2 ^ 64 }
        ensures { result ≡ stretch ∷ [] }
    {
        let line = Line::Buffer {
            at: stretch.at,
            texel: stretch.size,
        };
        RowStretches::new(line, 1, stretch.size)
    }

    /// Takes the next stretch of the bytes that are left; `None` where there are none.
    pub fn next_stretch(&mut self) -> Option<Stretch>
        ensures { IsNext result self.old self.new }
    {
        if self.x == self.texels {
            return None;
        }
        let run = self.line.together(self.x, self.texels);
        self.x += run.texels;
        Some(Stretch {
            at: run.at,
            size: u64::from(run.texels) * self.texel,
        })
    }
}
