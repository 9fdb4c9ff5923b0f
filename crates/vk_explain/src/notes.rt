use std::alloc::{AllocError, Global};
use vk_model::{
    At, Batch, BufferElement, Cmd, Element, Entry, Families, ImageElement, Layout, Stages,
};
use vk_words::push_at;

/// What Vulkan refuses of an element of a barrier and no rule judges.
#[derive(Clone, Copy, Debug, PartialEq, Eq)]
pub enum NoteKind {
    /// HOST on a side of an ownership transfer of a buffer.
    HostInBufferTransfer,
    /// HOST on a side of an ownership transfer of an image.
    HostInImageTransfer,
    /// HOST in the source of a transition from another layout than UNDEFINED and GENERAL.
    HostBeforeTransition,
    /// An ownership transfer whose layouts are both UNDEFINED.
    UndefinedTransfer,
    /// An ownership transfer whose layouts are equal and not known.
    UnknownTransfer,
}

impl NoteKind {
    /// What it is, in words.
    fn words(self) -> &'static str {
        match self {
            NoteKind::HostInBufferTransfer | NoteKind::HostInImageTransfer => {
                "HOST on a side of an ownership transfer"
            }
            NoteKind::HostBeforeTransition => {
                "HOST in the source of a transition from another layout than UNDEFINED and GENERAL"
            }
            NoteKind::UndefinedTransfer => "an ownership transfer in the layout UNDEFINED",
            NoteKind::UnknownTransfer => "an ownership transfer in a layout that isn't known",
        }
    }

    /// The identifier of the valid usage that it breaks.
    fn identifier(self) -> &'static str {
        match self {
            NoteKind::HostInBufferTransfer => "VUID-VkBufferMemoryBarrier2-srcStageMask-03851",
            NoteKind::HostInImageTransfer => "VUID-VkImageMemoryBarrier2-srcStageMask-03854",
            NoteKind::HostBeforeTransition => "VUID-VkImageMemoryBarrier2-srcStageMask-03855",
            NoteKind::UndefinedTransfer => "VUID-VkImageMemoryBarrier2-newLayout-01198",
            NoteKind::UnknownTransfer => "VUID-VkImageMemoryBarrier2-newLayout-parameter",
        }
    }
}

/// Something that Vulkan refuses and no rule judges. It changes no verdict.
#[derive(Clone, Copy, Debug, PartialEq, Eq)]
pub struct Note {
    /// The command.
    pub at: At,
    /// The number of the element in it.
    pub element: usize,
    /// What it is.
    pub kind: NoteKind,
}

/// How many notes there are at most.
pub const MOST_NOTES: usize = 16;

/// The first notes on a trace, of all batches that it submits.
///
/// # Errors
///
/// Where no memory is left.
pub fn notes_of(alloc: Global, trace: &[Entry]) -> Result<Vec<Note>, AllocError> {
    let mut notes = Vec::new(alloc);
    for (e, entry) in trace.iter().enumerate() {
        if let Entry::Submit { queue: _, batches } = entry {
            for (b, batch) in batches.as_slice().iter().enumerate() {
                note_batch(&mut notes, e, b, batch)?;
            }
        }
        if notes.len() >= MOST_NOTES {
            break;
        }
    }
    Ok(notes)
}

fn note_batch(notes: &mut Vec<Note>, e: usize, b: usize, batch: &Batch) -> Result<(), AllocError> {
    for (c, command) in batch.commands.as_slice().iter().enumerate() {
        if let Cmd::Barrier { elements } = command {
            note_elements(notes, At::Command(e, b, c), elements.as_slice())?;
        }
    }
    Ok(())
}

fn note_elements(notes: &mut Vec<Note>, at: At, elements: &[Element]) -> Result<(), AllocError> {
    for (number, element) in elements.iter().enumerate() {
        if notes.len() >= MOST_NOTES {
            return Ok(());
        }
        if let Some(kind) = kind_of(element) {
            notes.push(Note {
                at,
                element: number,
                kind,
            })?;
        }
    }
    Ok(())
}

/// What there is to note of an element; one thing at most.
fn kind_of(element: &Element) -> Option<NoteKind> {
    match element {
        Element::Memory(_) => None,
        Element::Buffer(element) => buffer_kind(element),
        Element::Image(element) => image_kind(element),
    }
}

fn buffer_kind(element: &BufferElement) -> Option<NoteKind> {
    let dependency = element.dependency;
    let host = has_host(dependency.source_stages) || has_host(dependency.destination_stages);
    if host && is_transfer(element.families) {
        Some(NoteKind::HostInBufferTransfer)
    } else {
        None
    }
}

fn image_kind(element: &ImageElement) -> Option<NoteKind> {
    let dependency = element.dependency;
    let before = has_host(dependency.source_stages);
    let layout = element.old_layout;
    if is_transfer(element.families) {
        if before || has_host(dependency.destination_stages) {
            return Some(NoteKind::HostInImageTransfer);
        }
        return if layout == element.new_layout {
            transfer_kind(layout)
        } else {
            None
        };
    }
    let moves = layout != element.new_layout;
    if before && moves && layout != Layout::UNDEFINED && layout != Layout::GENERAL {
        Some(NoteKind::HostBeforeTransition)
    } else {
        None
    }
}

/// What there is to note of an ownership transfer whose layouts are both this one.
fn transfer_kind(layout: Layout) -> Option<NoteKind> {
    match layout.code() {
        0 => Some(NoteKind::UndefinedTransfer),
        1 | 6 | 7 => None,
        _ => Some(NoteKind::UnknownTransfer),
    }
}

fn has_host(stages: Stages) -> bool {
    stages.0 & Stages::HOST.0 != 0
}

fn is_transfer(families: Families) -> bool {
    families.source != families.destination
}

/// A note in words, with the identifier.
pub fn note_words(alloc: Global, note: Note) -> Result<String, AllocError> {
    let mut words = String::from_str(alloc, "command ")?;
    push_at(&mut words, note.at)?;
    let element = note.element;
    let kind = note.kind.words();
    let identifier = note.kind.identifier();
    write!(
        words,
        ", element {element}: {kind}, which Vulkan refuses ({identifier})"
    )?;
    Ok(words)
}
