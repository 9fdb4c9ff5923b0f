use crate::cases::{Case, place_of};
use crate::edits::Change;
use crate::lists::EditList;
use std::alloc::AllocError;
use vk_model::{
    Action, BufferElement, Cmd, Duplicate, Element, Entry, ImageElement, SemaphoreSubmit, Sequence,
};

/// An id in place of another one.
#[derive(Clone, Copy)]
pub struct Renaming {
    /// The other one.
    pub from: u32,
    /// What it is replaced by.
    pub to: u32,
}

impl Renaming {
    fn of(self, id: u32) -> u32 {
        if id == self.from { self.to } else { id }
    }
}

/// The refused point names another id.
pub fn rename(case: &Case<'_>, edits: &mut EditList, renaming: Renaming) -> Result<(), AllocError> {
    let at = place_of(&case.refused);
    match case.refused.action {
        Action::Host(entry) => {
            edits.replace(case.refused.entry, renamed_entry(entry, renaming)?)
        }
        Action::Run(command) => edits.replace_command(
            at,
            renamed_command(case, command, renaming)?,
        ),
        Action::Wait(wait) => edits.wait(Change::Replace, at, renamed_submit(*wait, renaming)),
        Action::Signal(signal) => {
            edits.signal(Change::Replace, at, renamed_submit(*signal, renaming))
        }
    }
}

fn renamed_submit(submit: SemaphoreSubmit, renaming: Renaming) -> SemaphoreSubmit {
    SemaphoreSubmit {
        semaphore: renaming.of(submit.semaphore),
        ..submit
    }
}

/// An entry that names another id; in the lists of an end of a pass none is changed.
pub fn renamed_entry(entry: &Entry, renaming: Renaming) -> Result<Entry, AllocError> {
    let mut changed = entry.duplicate()?;
    match &mut changed {
        Entry::Map { buffer }
        | Entry::Unmap { buffer }
        | Entry::Write { buffer, .. }
        | Entry::Read { buffer, .. }
        | Entry::Flush { buffer, .. }
        | Entry::Invalidate { buffer, .. } => *buffer = renaming.of(*buffer),
        Entry::Destroy { resource } => *resource = renaming.of(*resource),
        Entry::Signal { semaphore, .. } => *semaphore = renaming.of(*semaphore),
        Entry::Defrag { pool, .. } => *pool = renaming.of(*pool),
        Entry::Pass { defrag } | Entry::EndPass { defrag, .. } | Entry::EndDefrag { defrag } => {
            *defrag = renaming.of(*defrag);
        }
        _ => {}
    }
    Ok(changed)
}

fn renamed_command(case: &Case<'_>, command: &Cmd, renaming: Renaming) -> Result<Cmd, AllocError> {
    match command.duplicate()? {
        Cmd::Fill {
            buffer,
            offset,
            size,
            word,
        } => Ok(Cmd::Fill {
            buffer: renaming.of(buffer),
            offset,
            size,
            word,
        }),
        Cmd::Update {
            buffer,
            offset,
            bytes,
        } => Ok(Cmd::Update {
            buffer: renaming.of(buffer),
            offset,
            bytes,
        }),
        Cmd::Barrier { elements } => Ok(Cmd::Barrier {
            elements: renamed_elements(case, elements.as_slice(), renaming)?,
        }),
        Cmd::Set { event, elements } => Ok(Cmd::Set {
            event: renaming.of(event),
            elements,
        }),
        Cmd::Await { event, elements } => Ok(Cmd::Await {
            event: renaming.of(event),
            elements,
        }),
        other => Ok(renamed_copy(other, renaming)),
    }
}

/// A clear or a copy that names another id.
fn renamed_copy(command: Cmd, renaming: Renaming) -> Cmd {
    match command {
        Cmd::Copy {
            source,
            destination,
            regions,
        } => Cmd::Copy {
            source: renaming.of(source),
            destination: renaming.of(destination),
            regions,
        },
        Cmd::CopyIn {
            buffer,
            image,
            layout,
            regions,
        } => Cmd::CopyIn {
            buffer: renaming.of(buffer),
            image: renaming.of(image),
            layout,
            regions,
        },
        Cmd::CopyOut {
            image,
            layout,
            buffer,
            regions,
        } => Cmd::CopyOut {
            image: renaming.of(image),
            layout,
            buffer: renaming.of(buffer),
            regions,
        },
        other => renamed_image_command(other, renaming),
    }
}

/// A clear or a copy between images that names another id.
fn renamed_image_command(command: Cmd, renaming: Renaming) -> Cmd {
    match command {
        Cmd::Clear {
            image,
            layout,
            color,
            ranges,
        } => Cmd::Clear {
            image: renaming.of(image),
            layout,
            color,
            ranges,
        },
        Cmd::CopyImage {
            source,
            source_layout,
            destination,
            destination_layout,
            regions,
        } => Cmd::CopyImage {
            source: renaming.of(source),
            source_layout,
            destination: renaming.of(destination),
            destination_layout,
            regions,
        },
        other => other,
    }
}

fn renamed_elements(
    case: &Case<'_>,
    elements: &[Element],
    renaming: Renaming,
) -> Result<Sequence<Element>, AllocError> {
    let mut all = Vec::new(case.alloc);
    for element in elements {
        all.push(renamed_element(*element, renaming))?;
    }
    Ok(Sequence::new(all))
}

fn renamed_element(element: Element, renaming: Renaming) -> Element {
    match element {
        Element::Memory(dependency) => Element::Memory(dependency),
        Element::Buffer(range) => Element::Buffer(BufferElement {
            buffer: renaming.of(range.buffer),
            ..range
        }),
        Element::Image(range) => Element::Image(ImageElement {
            image: renaming.of(range.image),
            ..range
        }),
    }
}
