ghost use Rattle.std.specs.Prelude.{◌≡◌, ◌∷◌, [], IfOk, IsTrue};
ghost use Rattle.vk_model.specs.Trace.Objects as objects;
ghost use Rattle.vk_model.specs.Sync.Access as access;
ghost use Rattle.vk_model.specs.Sync.Access.{reads_of, writes_of, targets, origins, transition_bytes};
ghost use Rattle.vk_model.specs.World.ByteWrites.{byte_writes, buffer_size};
ghost use Rattle.vk_model.specs.Inner.Kinds.{is_image_command, is_buffer_image_copy};
ghost use Rattle.vk_order.specs.NodeViews.{act_of};
ghost use Rattle.vk_hazards.specs.Areas.{AreAreas};

use crate::areas::{Area, bytes};
use crate::commands::{
    clear_targets, copy_image_reads, copy_image_targets, copy_in_reads, copy_in_targets,
    copy_out_reads, copy_out_targets, copy_reads, copy_targets, fill_targets, named_bytes, one,
    update_targets,
};
use crate::past::Past;
use std::alloc::{AllocError, Global};
use vk_model::{Cmd, Element, Entry, ImageInfo};
use vk_order::{Act, is_release};

impl Past<'_> {
    /// The areas that a node on a queue reads.
    pub fn areas_read(&self, queue: u32, act: &Act<'_>) -> Result<Vec<Area>, AllocError>
        ensures { IfOk result (λ areas. AreAreas areas.items (reads_of self.now queue (act_of act.now))) }
    {
        match act {
            Act::Hosts(entry) => host_reads(self.alloc, entry),
            Act::Runs(command) => self.command_reads(command),
            Act::Barrier(element) => self.transition(queue, element),
            _ => none(self.alloc),
        }
    }

    /// The areas that a node on a queue writes.
    pub fn areas_written(&self, queue: u32, act: &Act<'_>) -> Result<Vec<Area>, AllocError>
        ensures { IfOk result (λ areas. AreAreas areas.items (writes_of self.now queue (act_of act.now))) }
    {
        match act {
            Act::Hosts(entry) => host_writes(self.alloc, entry),
            Act::Runs(command) => self.command_writes(command),
            Act::Barrier(element) => self.transition(queue, element),
            _ => none(self.alloc),
        }
    }

    /// What a clear or copy command reads.
    fn command_reads(&self, command: &Cmd) -> Result<Vec<Area>, AllocError>
        ensures { IfOk result (λ areas. AreAreas areas.items (origins (byte_writes self.now command.now))) }
    {
        let alloc = self.alloc;
        match command {
            Cmd::Copy {
                source,
                regions,
                ..
            } => {
                let areas = copy_reads(alloc, *source, regions.as_slice())?;
                Ok(areas)
            }
            Cmd::CopyIn {
                buffer,
                image,
                regions,
                ..
            } => {
                let areas = copy_in_reads(alloc, *buffer, self.image(*image), regions.as_slice())?;
                Ok(areas)
            }
            Cmd::CopyOut { image, regions, .. } => {
                let areas = copy_out_reads(alloc, *image, self.image(*image), regions.as_slice())?;
                Ok(areas)
            }
            Cmd::CopyImage {
                source,
                destination,
                regions,
                ..
            } => {
                let info = self.image(*destination);
                let areas = copy_image_reads(alloc, *source, info, regions.as_slice())?;
                Ok(areas)
            }
            _ => {
                let areas = none(alloc)?;
                Ok(areas)
            }
        }
    }

    /// What a clear or copy command writes.
    fn command_writes(&self, command: &Cmd) -> Result<Vec<Area>, AllocError>
        ensures { IfOk result (λ areas. AreAreas areas.items (targets (byte_writes self.now command.now))) }
    {
        let alloc = self.alloc;
        match command {
            Cmd::Fill {
                buffer,
                offset,
                size,
                ..
            } => {
                let size = size.filled(self.buffer_size(*buffer), *offset);
                let areas = fill_targets(alloc, *buffer, *offset, size)?;
                Ok(areas)
            }
            Cmd::Update {
                buffer,
                offset,
                bytes: values,
            } => {
                let areas = update_targets(alloc, *buffer, *offset, values.as_slice())?;
                Ok(areas)
            }
            Cmd::Copy {
                destination,
                regions,
                ..
            } => {
                let areas = copy_targets(alloc, *destination, regions.as_slice())?;
                Ok(areas)
            }
            Cmd::Clear { .. } | Cmd::CopyImage { .. } => self.image_writes(command),
            Cmd::CopyIn { .. } | Cmd::CopyOut { .. } => self.buffer_image_writes(command),
            _ => none(alloc),
        }
    }

    /// What a command on images alone writes.
    fn image_writes(&self, command: &Cmd) -> Result<Vec<Area>, AllocError>
        requires { IsTrue (is_image_command command.now) }
        ensures { IfOk result (λ areas. AreAreas areas.items (targets (byte_writes self.now command.now))) }
    {
        let alloc = self.alloc;
        match command {
            Cmd::Clear { image, ranges, .. } => {
                let areas = clear_targets(alloc, *image, self.image(*image), ranges.as_slice())?;
                Ok(areas)
            }
            Cmd::CopyImage {
                destination,
                regions,
                ..
            } => {
                let info = self.image(*destination);
                let areas = copy_image_targets(alloc, *destination, info, regions.as_slice())?;
                Ok(areas)
            }
            _ => unreachable!(),
        }
    }

    /// What a copy between a buffer and an image writes.
    fn buffer_image_writes(&self, command: &Cmd) -> Result<Vec<Area>, AllocError>
        requires { IsTrue (is_buffer_image_copy command.now) }
        ensures { IfOk result (λ areas. AreAreas areas.items (targets (byte_writes self.now command.now))) }
    {
        let alloc = self.alloc;
        match command {
            Cmd::CopyIn { image, regions, .. } => {
                let info = self.image(*image);
                let areas = copy_in_targets(alloc, *image, info, regions.as_slice())?;
                Ok(areas)
            }
            Cmd::CopyOut {
                image,
                buffer,
                regions,
                ..
            } => {
                let info = self.image(*image);
                let areas = copy_out_targets(alloc, *buffer, info, regions.as_slice())?;
                Ok(areas)
            }
            _ => unreachable!(),
        }
    }

    /// How many bytes a buffer has; what is no buffer has none.
    fn buffer_size(&self, buffer: u32) -> u64
        ensures { result ≡ buffer_size self.now buffer }
    {
        match self.creators.buffer(buffer) {
            Some(info) => info.size,
            None => 0,
        }
    }

    /// The image of an id.
    fn image(&self, id: u32) -> Option<ImageInfo>
        ensures { result ≡ objects.image self.now id }
    {
        self.creators.image(id)
    }

    /// What a layout transition reads and writes, which it does of all that it covers.
    fn transition(&self, queue: u32, element: &Element) -> Result<Vec<Area>, AllocError>
        ensures { IfOk result (λ areas. AreAreas areas.items (transition_bytes self.now queue element.now)) }
    {
        let Element::Image(range) = element else {
            return none(self.alloc);
        };
        if range.old_layout == range.new_layout {
            return none(self.alloc);
        }
        if is_release(queue, element) {
            return none(self.alloc);
        }
        let areas = named_bytes(self.alloc, self.image(range.image), range)?;
        Ok(areas)
    }
}

fn none(alloc: Global) -> Result<Vec<Area>, AllocError>
    ensures areas { IfOk result (λ areas. AreAreas areas.items []) }
    ensures items { IfOk result (λ areas. areas.items ≡ []) }
{
    Ok(Vec::new(alloc))
}

/// What an entry of the host reads.
fn host_reads(alloc: Global, entry: &Entry) -> Result<Vec<Area>, AllocError>
    ensures { IfOk result (λ areas. AreAreas areas.items (access.host_reads entry.now)) }
{
    match entry {
        Entry::Read {
            buffer,
            offset,
            size,
        } => one(alloc, bytes(*buffer, *offset, *size)),
        _ => none(alloc),
    }
}

/// What an entry of the host writes.
fn host_writes(alloc: Global, entry: &Entry) -> Result<Vec<Area>, AllocError>
    ensures { IfOk result (λ areas. AreAreas areas.items (access.host_writes entry.now)) }
{
    match entry {
        Entry::Write {
            buffer,
            offset,
            bytes: values,
        } => one(alloc, bytes(*buffer, *offset, values.len() as u64)),
        _ => none(alloc),
    }
}
