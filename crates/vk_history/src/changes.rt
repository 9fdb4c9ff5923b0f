ghost use Rattle.std.specs.Prelude.{◌≡◌, true};
ghost use Rattle.vk_model.specs.Trace.PointViews.{action_of};
ghost use Rattle.vk_model.specs.Trace.Point.{Host, Run};
ghost use Rattle.vk_history.specs.Changes.{Fits, is_copy};

use vk_model::{
    Action, BufferCopy, BufferImageCopy, BufferInfo, Cmd, Element, Entry, ImageCopy, ImageInfo,
    Length, Point, SubresourceRange,
};

/// A change of the bytes of resources.
#[derive(Clone, Copy)]
pub enum Change<'a> {
    /// No bytes of resources change.
    Nothing,
    /// A buffer was made.
    Made(u32, &'a BufferInfo),
    /// An image was made.
    ImageMade(u32, &'a ImageInfo),
    /// The host read a range of a buffer.
    HostRead(u32, u64, u64),
    /// The host wrote a range of a buffer.
    HostWritten(u32, u64, u64),
    /// The host flushed a range of a buffer.
    Flushed(u32, u64, Length),
    /// The host invalidated a range of a buffer.
    Invalidated(u32, u64, Length),
    /// A command gave a range of a buffer values.
    Written(u32, u64, Length),
    /// A command cleared levels and layers of an image.
    Cleared(u32, &'a [SubresourceRange]),
    /// A command copied regions from one buffer to another, or within one.
    Copied(u32, u32, &'a [BufferCopy]),
    /// A command copied regions from a buffer to an image.
    CopiedIn(u32, u32, &'a [BufferImageCopy]),
    /// A command copied regions from an image to a buffer.
    CopiedOut(u32, u32, &'a [BufferImageCopy]),
    /// A command copied regions from one image to another, or within one.
    CopiedImage(u32, u32, &'a [ImageCopy]),
    /// A barrier has elements, which may pass resources from one queue family to another, and
    /// change the layouts of images.
    Passed(&'a [Element]),
}

/// What a point changes of the bytes of resources.
pub fn change_by<'a>(point: &Point<'a>) -> Change<'a>
    ensures { Fits result (action_of point.now.action) }
{
    match point.action {
        Action::Host(entry) => change_by_entry(entry),
        Action::Run(command) => change_by_command(command),
        _ => Change::Nothing,
    }
}

fn change_by_entry(entry: &Entry) -> Change<'_>
    ensures { Fits result (Host entry.now) }
{
    match entry {
        Entry::Buffer { id, info } => Change::Made(*id, info),
        Entry::Image { id, info } => Change::ImageMade(*id, info),
        Entry::Read {
            buffer,
            offset,
            size,
        } => Change::HostRead(*buffer, *offset, *size),
        Entry::Write {
            buffer,
            offset,
            bytes,
        } => Change::HostWritten(*buffer, *offset, bytes.len() as u64),
        Entry::Flush {
            buffer,
            offset,
            size,
        } => Change::Flushed(*buffer, *offset, *size),
        Entry::Invalidate {
            buffer,
            offset,
            size,
        } => Change::Invalidated(*buffer, *offset, *size),
        _ => Change::Nothing,
    }
}

fn change_by_command(command: &Cmd) -> Change<'_>
    ensures { Fits result (Run command.now) }
{
    match command {
        Cmd::Fill {
            buffer,
            offset,
            size,
            ..
        } => Change::Written(*buffer, *offset, *size),
        Cmd::Update {
            buffer,
            offset,
            bytes,
        } => Change::Written(*buffer, *offset, Length::Bytes(bytes.len() as u64)),
        Cmd::Clear { image, ranges, .. } => Change::Cleared(*image, ranges.as_slice()),
        Cmd::Copy { .. } | Cmd::CopyIn { .. } | Cmd::CopyOut { .. } | Cmd::CopyImage { .. } => {
            change_by_copy(command)
        }
        Cmd::Barrier { elements } => Change::Passed(elements.as_slice()),
        Cmd::Set { .. } | Cmd::Await { .. } => Change::Nothing,
    }
}

fn change_by_copy(command: &Cmd) -> Change<'_>
    requires { is_copy command.now ≡ true }
    ensures { Fits result (Run command.now) }
{
    match command {
        Cmd::Copy {
            source,
            destination,
            regions,
        } => Change::Copied(*source, *destination, regions.as_slice()),
        Cmd::CopyIn {
            buffer,
            image,
            regions,
            ..
        } => Change::CopiedIn(*buffer, *image, regions.as_slice()),
        Cmd::CopyOut {
            image,
            buffer,
            regions,
            ..
        } => Change::CopiedOut(*image, *buffer, regions.as_slice()),
        Cmd::CopyImage {
            source,
            destination,
            regions,
            ..
        } => Change::CopiedImage(*source, *destination, regions.as_slice()),
        _ => unreachable!(),
    }
}
