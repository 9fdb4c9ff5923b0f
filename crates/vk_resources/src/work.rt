use std::alloc::{AllocError, Global};
use std::marker::Model;
use vk_image_transfer::{ImageCopyRows, RegionRows};
use vk_model::Cmd;
use vk_transfer::CopyPieces;

/// The pieces of the regions of a copy.
#[derive(Drop)]
pub(crate) enum Regions<'a> {
    /// It is no copy.
    Without,
    /// Of one between buffers.
    OfBuffers(CopyPieces<'a>),
    /// Of one between a buffer and an image.
    OfBoth(RegionRows<'a>),
    /// Of one between images.
    OfImages(ImageCopyRows<'a>),
}

impl<'a> Regions<'a> {
    ghost use Rattle.vk_resources.specs.Inner.Works.{regions_count};
    ghost use Rattle.std.specs.Prelude.{◌≡◌};

    /// How many pieces there are.
    pub(crate) fn pieces(&self) -> u64
        ensures { result ≡ regions_count self.now }
    {
        match self {
            Regions::Without => 0,
            Regions::OfBuffers(pieces) => pieces.pieces(),
            Regions::OfBoth(rows) => rows.pieces(),
            Regions::OfImages(rows) => rows.pieces(),
        }
    }
}

/// A command that has come, made ready to be run in pieces: the regions of a copy are walked once.
/// Contracts see the command.
#[derive(Drop)]
pub struct Work<'a> {
    pub(crate) command: &'a Cmd,
    /// The pieces of its regions, where it is a copy.
    pub(crate) regions: Regions<'a>,
}

impl<'a> Model for Work<'a> {
    ghost use Rattle.vk_model.specs.declared.command.Cmd.{Cmd as AnyCommand};
    ghost use Rattle.vk_resources.specs.Inner.Works.{AreCopied};

    ghost Value = { AnyCommand };

    ghost view = { λ w. w.command.now };

    ghost invariant = { λ w. AreCopied w.command.now w.regions };
}

impl<'a> Work<'a> {
    ghost use Rattle.std.specs.Prelude.{◌≡◌, IfOk};
    ghost use Rattle.vk_model.specs.Rules.Ranges.{regions_of};
    ghost use Rattle.vk_resources.specs.Inner.Works.{IsForBoth, IsForTwo, image_regions_of};

    /// Makes a command ready. The only error is want of memory, or of numbers where its regions have
    /// more pieces than 64 bits count.
    pub fn new(alloc: Global, command: &'a Cmd) -> Result<Work<'a>, AllocError>
        ensures { IfOk result (λ w. w ≡ command.now) }
    {
        let regions = match command {
            Cmd::Copy { regions, .. } => {
                let pieces = CopyPieces::new(alloc, regions.as_slice());
                Regions::OfBuffers(pieces.map_err(|_| AllocError)?)
            }
            Cmd::CopyIn { regions, .. } => {
                let rows = RegionRows::new(alloc, regions.as_slice());
                Regions::OfBoth(rows.map_err(|_| AllocError)?)
            }
            Cmd::CopyOut { regions, .. } => {
                let rows = RegionRows::new(alloc, regions.as_slice());
                Regions::OfBoth(rows.map_err(|_| AllocError)?)
            }
            Cmd::CopyImage { regions, .. } => {
                let rows = ImageCopyRows::new(alloc, regions.as_slice());
                Regions::OfImages(rows.map_err(|_| AllocError)?)
            }
            _ => Regions::Without,
        };
        Ok(Work { command, regions })
    }

    /// The pieces of the regions of a copy between a buffer and an image.
    pub(crate) fn rows(&self) -> &RegionRows<'a>
        requires { IsForBoth self.now }
        ensures { regions_of self.now ≡ result.now }
    {
        match &self.regions {
            Regions::OfBoth(rows) => rows,
            _ => unreachable!(),
        }
    }

    /// The pieces of the regions of a copy between images.
    pub(crate) fn image_rows(&self) -> &ImageCopyRows<'a>
        requires { IsForTwo self.now }
        ensures { image_regions_of self.now ≡ result.now }
    {
        match &self.regions {
            Regions::OfImages(rows) => rows,
            _ => unreachable!(),
        }
    }
}
