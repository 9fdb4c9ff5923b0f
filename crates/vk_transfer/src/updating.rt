ghost use Rattle.std.specs.Prelude.{◌≡◌, ◌+◌, ◌*◌, ◌^◌, ◌<◌, ◌≤◌, ℕ, length, is_some};
ghost use Rattle.vk_heap.specs.Region.{splice, piece};
ghost use Rattle.vk_model.specs.Run.CachedRuns.{write_to};
ghost use Rattle.vk_model.specs.Run.Pieces.{cut};
ghost use Rattle.vk_model.specs.World.Bytes.{Byte};
ghost use Rattle.vk_transfer.specs.Updates.{update_writes, update_piece, update_piece_size};
ghost use Rattle.vk_transfer.specs.Ran.{bytes_in, HaveRun};
ghost use Rattle.vk_transfer.specs.Stretches.{is_byte_in};

use crate::pieces::{PIECE, piece_count, piece_size};
use crate::stretches::Stretch;
use vk_heap::Region;

/// An update of a buffer, with the bytes that it writes there (Vulkan, "Updating Buffers").
#[derive(Clone, Copy, Debug, Drop, PartialEq, Eq)]
pub struct Update<'b> {
    /// Where it begins in the buffer, in bytes.
    pub offset: u64,
    /// The bytes.
    pub bytes: &'b [u8],
}

impl<'b> Update<'b> {
    /// How many pieces it is run in.
    #[tactic(auto, using(crate::proofs::UpdatePieces::length_update))]
    pub fn pieces(&self) -> u64
        ensures { (b : ℕ) → result ≡ length (cut 4096 (update_writes b self.now)) }
    {
        piece_count(self.bytes.len() as u64)
    }

    /// The bytes that the piece of this number writes, where the buffer lies from `start` on.
    pub fn stretch(&self, number: u64, start: u64) -> Stretch
        requires end { start + self.now.offset + length self.now.bytes.now < 2 ^ 64 }
        requires piece { 4096 * number < length self.now.bytes.now }
        ensures written { (b : ℕ) (c : Byte) → is_some (write_to c (update_piece b self.now number)) ≡ is_byte_in result b start c }
        ensures some { 0 < result.size }
        ensures from { start + self.now.offset ≤ result.at }
        ensures to { result.at + result.size ≤ start + self.now.offset + length self.now.bytes.now }
    {
        Stretch {
            at: start + self.offset + PIECE * number,
            size: piece_size(self.bytes.len() as u64, number),
        }
    }

    /// Runs the piece of this number on the region in which the buffer lies from `start` on.
    pub fn run_piece(&self, number: u64, region: &mut Region, start: u64)
        requires inside { start + self.now.offset + length self.now.bytes.now ≤ length region.old }
        requires piece { 4096 * number < length self.now.bytes.now }
        ensures ran { (b : ℕ) → HaveRun (update_piece b self.now number) (bytes_in region.old start b) (bytes_in region.new start b) }
        ensures kept { region.new ≡ splice region.old (start + self.now.offset + 4096 * number) (piece self.now.bytes.now (4096 * number) (update_piece_size self.now number)) }
    {
        // A region's size is a whole number of 64 bits, so the places in it are too.
        let _size = region.size();
        let before = PIECE * number;
        let size = piece_size(self.bytes.len() as u64, number);
        let bytes = &self.bytes[before as usize..(before + size) as usize];
        region.write(start + self.offset + before, bytes);
    }
}
