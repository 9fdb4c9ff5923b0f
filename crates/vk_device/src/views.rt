ghost use Rattle.std.specs.Prelude.{◌≡◌, List};
ghost use Rattle.vk_model.specs.declared.entry.Entry.{Entry};
ghost use Rattle.vk_model.specs.Run.Runs.{Step, Stage};
ghost use Rattle.vk_offers.specs.IsOffers.{IsPieceOf};
ghost use Rattle.vk_device.specs.Led.{Led, MayRun, IsWritten};

use crate::device::Device;
use vk_backing::Passes;
use vk_laws::{commands_name_live, defined_runs_follow, direct_runs_are_runs, offered_are_pieces};
use vk_model::{Cmd, no_fault_is_sound, pieces_are_byte_writes};
use vk_offers::Piece;
use vk_resources::{Resources, Written};

impl<'a> Device<'a> {
    /// Its buffers, images and pools, and the memory that they lie in.
    pub fn resources(&self) -> &Resources
        ensures { result.now ≡ self.now.resources }
    {
        &self.resources
    }

    /// The command of a piece that may run next.
    pub fn command(&self, piece: Piece) -> &'a Cmd
        requires { MayRun self.now piece }
        ensures { (t : List Entry) (steps : List Step) (s : Stage) → Led t steps s self.now → IsPieceOf s.front.past piece result.now }
    {
        self.offers.command(piece)
    }

    /// The bytes that a piece that may run next is about to write. It takes no memory.
    pub fn written(&self, piece: Piece) -> Written
        requires { MayRun self.now piece }
        ensures { IsWritten self.now piece result }
    {
        direct_runs_are_runs();
        defined_runs_follow();
        offered_are_pieces();
        no_fault_is_sound();
        commands_name_live();
        pieces_are_byte_writes();
        self.resources
            .written(&self.works[piece.command], piece.index)
    }

    /// The defragmentations that have begun.
    pub fn passes(&self) -> &Passes
        ensures { result.now ≡ self.now.passes }
    {
        &self.passes
    }
}
