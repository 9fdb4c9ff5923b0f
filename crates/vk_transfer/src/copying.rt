ghost use Rattle.std.specs.Prelude.{◌≡◌, ◌+◌, ◌*◌, ◌^◌, ◌<◌, ◌≤◌, ℕ, length, is_some};
ghost use Rattle.vk_heap.specs.Region.{splice, piece};
ghost use Rattle.vk_model.specs.Run.CachedRuns.{write_to};
ghost use Rattle.vk_model.specs.Run.Pieces.{cut};
ghost use Rattle.vk_model.specs.World.Bytes.{Byte};
ghost use Rattle.vk_model.specs.World.ByteWrites.{copy_writes};
ghost use Rattle.vk_transfer.specs.Copies.{region_piece, region_piece_size, FitsBuffers};
ghost use Rattle.vk_transfer.specs.Ran.{bytes_in, bytes_of, two_buffers, stretch, AreApart, HaveRun};
ghost use Rattle.vk_transfer.specs.Stretches.{is_byte_in};

use crate::pieces::{PIECE, piece_count, piece_size};
use crate::stretches::Stretch;
use vk_heap::Region;
use vk_model::BufferCopy;

/// One region of a copy between buffers (Vulkan, "Copying Data Between Buffers").
#[derive(Clone, Copy, Debug, Drop, PartialEq, Eq)]
pub struct RegionCopy {
    /// Where it begins in both buffers, and how many bytes it has.
    pub region: BufferCopy,
}

impl RegionCopy {
    /// How many pieces it is run in.
    #[tactic(auto, using(crate::proofs::CopiedBytes::length_copy))]
    pub fn pieces(&self) -> u64
        ensures { (s d : ℕ) → result ≡ length (cut 4096 (copy_writes s d self.now.region)) }
    {
        piece_count(self.region.size)
    }

    /// The bytes of the piece of this number: where they lie in both buffers, and how many they are.
    pub fn piece(&self, number: u64) -> BufferCopy
        requires from { self.now.region.source_offset + self.now.region.size < 2 ^ 64 }
        requires to { self.now.region.destination_offset + self.now.region.size < 2 ^ 64 }
        requires piece { 4096 * number < self.now.region.size }
        ensures writes { (s d : ℕ) → copy_writes s d result ≡ region_piece s d self.now.region number }
        ensures from { result.source_offset ≡ self.now.region.source_offset + 4096 * number }
        ensures to { result.destination_offset ≡ self.now.region.destination_offset + 4096 * number }
        ensures size { result.size ≡ region_piece_size self.now.region number }
    {
        let before = PIECE * number;
        BufferCopy {
            source_offset: self.region.source_offset + before,
            destination_offset: self.region.destination_offset + before,
            size: piece_size(self.region.size, number),
        }
    }

    /// The bytes that the piece of this number writes, where the destination lies from `start` on.
    pub fn stretch(&self, number: u64, start: u64) -> Stretch
        requires end { start + self.now.region.destination_offset + self.now.region.size < 2 ^ 64 }
        requires piece { 4096 * number < self.now.region.size }
        ensures written { (s d : ℕ) (c : Byte) → is_some (write_to c (region_piece s d self.now.region number)) ≡ is_byte_in result d start c }
        ensures some { 0 < result.size }
        ensures from { start + self.now.region.destination_offset ≤ result.at }
        ensures to { result.at + result.size ≤ start + self.now.region.destination_offset + self.now.region.size }
    {
        Stretch {
            at: start + self.region.destination_offset + PIECE * number,
            size: piece_size(self.region.size, number),
        }
    }

    /// Runs the piece of this number between two regions of memory: the source lies in `source`
    /// from `source_start` on, the destination in `destination` from `destination_start` on.
    pub fn run_piece(
        &self,
        number: u64,
        source: &Region,
        source_start: u64,
        destination: &mut Region,
        destination_start: u64,
    )
        requires from { source_start + self.now.region.source_offset + self.now.region.size ≤ length source.now }
        requires to { destination_start + self.now.region.destination_offset + self.now.region.size ≤ length destination.old }
        requires piece { 4096 * number < self.now.region.size }
        ensures ran { (s d m n : ℕ) → ¬ (s ≡ d) → FitsBuffers self.now.region m n → HaveRun (region_piece s d self.now.region number)
            (bytes_of (two_buffers s (stretch source.now source_start m) d (stretch destination.old destination_start n)))
            (bytes_of (two_buffers s (stretch source.now source_start m) d (stretch destination.new destination_start n))) }
        ensures kept { destination.new ≡ splice destination.old (destination_start + self.now.region.destination_offset + 4096 * number)
            (piece source.now (source_start + self.now.region.source_offset + 4096 * number) (region_piece_size self.now.region number)) }
    {
        // A region's size is a whole number of 64 bits, so the places in it are too.
        let _sizes = (source.size(), destination.size());
        let piece = self.piece(number);
        let from = source_start + piece.source_offset;
        let to = destination_start + piece.destination_offset;
        source.copy_between(from, destination, to, piece.size);
    }

    /// Runs the piece of this number within one region of memory: the source lies there from
    /// `source_start` on, the destination from `destination_start` on. They may be one buffer.
    pub fn run_piece_within(
        &self,
        number: u64,
        region: &mut Region,
        source_start: u64,
        destination_start: u64,
    )
        requires from { source_start + self.now.region.source_offset + self.now.region.size ≤ length region.old }
        requires to { destination_start + self.now.region.destination_offset + self.now.region.size ≤ length region.old }
        requires piece { 4096 * number < self.now.region.size }
        ensures one { source_start ≡ destination_start → (b : ℕ) → HaveRun (region_piece b b self.now.region number) (bytes_in region.old source_start b) (bytes_in region.new source_start b) }
        ensures two { (s d m n : ℕ) → ¬ (s ≡ d) → FitsBuffers self.now.region m n → AreApart source_start m destination_start n → HaveRun (region_piece s d self.now.region number)
            (bytes_of (two_buffers s (stretch region.old source_start m) d (stretch region.old destination_start n)))
            (bytes_of (two_buffers s (stretch region.new source_start m) d (stretch region.new destination_start n))) }
        ensures kept { region.new ≡ splice region.old (destination_start + self.now.region.destination_offset + 4096 * number)
            (piece region.old (source_start + self.now.region.source_offset + 4096 * number) (region_piece_size self.now.region number)) }
    {
        // A region's size is a whole number of 64 bits, so the places in it are too.
        let _size = region.size();
        let piece = self.piece(number);
        let at = source_start + piece.source_offset;
        let to = destination_start + piece.destination_offset;
        region.copy_within(at, to, piece.size);
    }
}
