ghost use Rattle.std.specs.Prelude.{◌≡◌, ℕ, ◌+◌, ◌*◌, ◌/◌, ◌<◌, ◌≤◌, List, Some, length, slice_get};
ghost use Rattle.vk_model.specs.Trace.Point.{Past};
ghost use Rattle.vk_model.specs.World.ByteWrites.{ByteWrite};
ghost use Rattle.vk_model.specs.Run.Pieces.{pieces};

use crate::resources::{Placed, Resources};
use crate::work::{Regions, Work};
use vk_image_transfer::Clear;
use vk_model::{Cmd, Length};
use vk_transfer::{CopyPieces, Fill, Update};

/// A fill of a buffer that lies somewhere.
pub(crate) fn filling(placed: Placed, offset: u64, size: Length, word: u32) -> Fill
    ensures { result ≡ fill_of offset size word placed }
{
    Fill {
        offset,
        size: size.filled(placed.size, offset),
        word,
    }
}

ghost use Rattle.vk_resources.specs.Inner.Steps.{fill_of};

impl Resources {
    ghost use Rattle.vk_transfer.specs.Ran.{HaveRun};
    ghost use Rattle.vk_transfer.specs.Fills.{fill_piece};
    ghost use Rattle.vk_transfer.specs.Updates.{update_piece};
    ghost use Rattle.vk_transfer.specs.Copies.{copy_piece};
    ghost use Rattle.vk_resources.specs.Held.{flat, byte_at};
    ghost use Rattle.vk_resources.specs.Rest.{KeepsRest, is_written};
    ghost use Rattle.vk_resources.specs.Matches.{Stands};
    ghost use Rattle.vk_resources.specs.Allocating.{allotted};
    ghost use Rattle.vk_resources.specs.PassSteps.{KeepsCopies};
    ghost use Rattle.vk_resources.specs.Fits.{FitsCommand, NamesLive};
    ghost use Rattle.vk_resources.specs.Done.{CommandReady, PieceReady};
    ghost use Rattle.vk_resources.specs.Inner.Steps.{IsPlaced, HasRun, CopyReady};

    /// How many pieces a command is run in.
    pub fn pieces(&self, work: &Work<'_>) -> u64
        requires { CommandReady self.now work.now }
        ensures { (past : Past) → Stands past self.now → FitsCommand past work.now → (0 < length (pieces past work.now) → NamesLive past work.now) → result ≡ length (pieces past work.now) }
    {
        match work.command {
            Cmd::Fill {
                buffer,
                offset,
                size,
                word,
            } => match self.buffer(*buffer) {
                Some(placed) => filling(placed, *offset, *size, *word).pieces(),
                None => 0,
            },
            Cmd::Update { offset, bytes, .. } => Update {
                offset: *offset,
                bytes: bytes.as_slice(),
            }
            .pieces(),
            Cmd::Clear {
                image,
                color,
                ranges,
                ..
            } => match self.shapes.get(image) {
                Some(shape) => Clear {
                    ranges: ranges.as_slice(),
                    color: *color,
                }
                .pieces(shape),
                None => 0,
            },
            _ => work.regions.pieces(),
        }
    }

    /// Runs the piece of this number of a command: it writes its bytes, and no others.
    pub fn run_piece(&mut self, work: &Work<'_>, number: u64)
        requires { PieceReady self.old work.now number }
        ensures ran { (past : Past) (ms : List ByteWrite) → Stands past self.old → FitsCommand past work.now → slice_get (pieces past work.now) number ≡ Some ms → HaveRun ms (byte_at self.old) (byte_at self.new) }
        // Of all memory only the bytes that are written change, also where no resource lies.
        ensures rest { (past : Past) (ms : List ByteWrite) → Stands past self.old → FitsCommand past work.now → slice_get (pieces past work.now) number ≡ Some ms → KeepsRest self.old self.new (is_written ms) }
        ensures agree { (past : Past) (ms : List ByteWrite) → Stands past self.old → FitsCommand past work.now → slice_get (pieces past work.now) number ≡ Some ms → KeepsCopies self.old self.new (is_written ms) }
        ensures matches { (past : Past) → Stands past self.old → Stands past self.new }
        ensures placed { self.new.resources ≡ self.old.resources }
        ensures shapes { self.new.shapes ≡ self.old.shapes }
        ensures cache { self.new.cache ≡ self.old.cache }
        ensures allotted { allotted self.new ≡ allotted self.old }
    {
        let _memories = &self.memories;
        match work.command {
            Cmd::Fill {
                buffer,
                offset,
                size,
                word,
            } => {
                let placed = self.there(*buffer);
                self.run_fill(placed, filling(placed, *offset, *size, *word), number);
            }
            Cmd::Update {
                buffer,
                offset,
                bytes,
            } => {
                let placed = self.there(*buffer);
                let update = Update {
                    offset: *offset,
                    bytes: bytes.as_slice(),
                };
                self.run_update(placed, &update, number);
            }
            Cmd::Copy {
                source,
                destination,
                ..
            } => {
                let from = self.there(*source);
                let to = self.there(*destination);
                match &work.regions {
                    Regions::OfBuffers(pieces) => self.run_copy(from, to, pieces, number),
                    _ => unreachable!(),
                }
            }
            _ => self.run_for_images(work, number),
        }
    }

    /// Runs a piece of a fill of a buffer.
    fn run_fill(&mut self, buffer: Placed, fill: Fill, number: u64)
        requires placed { IsPlaced self.old buffer }
        requires whole { fill.size ≡ 4 * (fill.size / 4) }
        requires inside { fill.offset + fill.size ≤ buffer.size }
        requires piece { 4096 * number < fill.size }
        ensures { (b : ℕ) → flat self.old b ≡ Some buffer → HasRun self.old self.new (fill_piece b fill number) }
    {
        fill.run_piece(
            number,
            self.memories.region_mut(buffer.object),
            buffer.offset,
        );
    }

    /// Runs a piece of an update of a buffer.
    fn run_update(&mut self, buffer: Placed, update: &Update<'_>, number: u64)
        requires placed { IsPlaced self.old buffer }
        requires inside { update.now.offset + length update.now.bytes.now ≤ buffer.size }
        requires piece { 4096 * number < length update.now.bytes.now }
        ensures { (b : ℕ) → flat self.old b ≡ Some buffer → HasRun self.old self.new (update_piece b update.now number) }
    {
        update.run_piece(
            number,
            self.memories.region_mut(buffer.object),
            buffer.offset,
        );
    }

    /// Runs a piece of a copy from a buffer to a buffer, which may be one.
    fn run_copy(
        &mut self,
        source: Placed,
        destination: Placed,
        pieces: &CopyPieces<'_>,
        number: u64,
    )
        requires source { IsPlaced self.old source }
        requires destination { IsPlaced self.old destination }
        requires piece { CopyReady source destination pieces.now number }
        ensures { (s d : ℕ) → flat self.old s ≡ Some source → flat self.old d ≡ Some destination → HasRun self.old self.new (copy_piece s d pieces.now number) }
    {
        let found = pieces.find(number);
        let piece = found.copy.piece(found.number);
        // A region's size is a whole number of 64 bits, so the places in it are too.
        let _sizes = (
            self.memories.region(source.object).size(),
            self.memories.region(destination.object).size(),
        );
        self.memories.copy(
            source.object,
            source.offset + piece.source_offset,
            destination.object,
            destination.offset + piece.destination_offset,
            piece.size,
        );
    }
}
