ghost use Rattle.std.specs.Prelude.{◌≡◌, ◌+◌, ◌*◌, ◌/◌, ◌^◌, ◌<◌, ◌≤◌, ℕ, length, is_some};
ghost use Rattle.std.specs.Int.{to_le_bytes, w32};
ghost use Rattle.vk_heap.specs.Region.{splice, repeated};
ghost use Rattle.vk_model.specs.Run.CachedRuns.{write_to};
ghost use Rattle.vk_model.specs.Run.Pieces.{cut};
ghost use Rattle.vk_model.specs.World.Bytes.{Byte};
ghost use Rattle.vk_transfer.specs.Fills.{fill_writes, fill_piece, piece_size};
ghost use Rattle.vk_transfer.specs.Ran.{bytes_in, HaveRun};
ghost use Rattle.vk_transfer.specs.Stretches.{is_byte_in};

use crate::pieces::{PIECE, piece_count, piece_size};
use crate::stretches::Stretch;
use vk_heap::Region;

/// A fill of a buffer, with the bytes that it writes there (Vulkan, "Filling Buffers").
#[derive(Clone, Copy, Debug, Drop, PartialEq, Eq)]
pub struct Fill {
    /// Where it begins in the buffer, in bytes.
    pub offset: u64,
    /// How many bytes it writes: whole words of four.
    pub size: u64,
    /// The word, which is written little-endian.
    pub word: u32,
}

impl Fill {
    /// How many pieces it is run in.
    #[tactic(auto, using(crate::proofs::FillPieces::writes_size))]
    pub fn pieces(&self) -> u64
        ensures { (b : ℕ) → result ≡ length (cut 4096 (fill_writes b self.now)) }
    {
        piece_count(self.size)
    }

    /// The bytes that the piece of this number writes, where the buffer lies from `start` on.
    pub fn stretch(&self, number: u64, start: u64) -> Stretch
        requires end { start + self.now.offset + self.now.size < 2 ^ 64 }
        requires piece { 4096 * number < self.now.size }
        ensures written { (b : ℕ) (c : Byte) → is_some (write_to c (fill_piece b self.now number)) ≡ is_byte_in result b start c }
        ensures some { 0 < result.size }
        ensures from { start + self.now.offset ≤ result.at }
        ensures to { result.at + result.size ≤ start + self.now.offset + self.now.size }
    {
        Stretch {
            at: start + self.offset + PIECE * number,
            size: piece_size(self.size, number),
        }
    }

    /// Runs the piece of this number on the region in which the buffer lies from `start` on.
    pub fn run_piece(&self, number: u64, region: &mut Region, start: u64)
        requires whole { self.now.size ≡ 4 * (self.now.size / 4) }
        requires inside { start + self.now.offset + self.now.size ≤ length region.old }
        requires piece { 4096 * number < self.now.size }
        ensures ran { (b : ℕ) → HaveRun (fill_piece b self.now number) (bytes_in region.old start b) (bytes_in region.new start b) }
        ensures kept { region.new ≡ splice region.old (start + self.now.offset + 4096 * number) (repeated (piece_size self.now number / 4) (to_le_bytes w32 self.now.word)) }
    {
        // A region's size is a whole number of 64 bits, so the places in it are too.
        let _size = region.size();
        let before = PIECE * number;
        let size = piece_size(self.size, number);
        region.fill(start + self.offset + before, size / 4, self.word);
    }
}
