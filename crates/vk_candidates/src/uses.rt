use std::alloc::{AllocError, Global};
use vk_model::{Action, Cmd, Element, Entry};

/// A resource that a point names, and whether it writes to it.
#[derive(Clone, Copy)]
pub struct Use {
    /// The id.
    pub resource: u32,
    /// Whether it is written.
    pub is_write: bool,
}

fn read(resource: u32) -> Use {
    Use {
        resource,
        is_write: false,
    }
}

/// A resource that is written.
pub fn write(resource: u32) -> Use {
    Use {
        resource,
        is_write: true,
    }
}

/// The resources that a point names.
pub fn uses_of(alloc: Global, action: Action<'_>) -> Result<Vec<Use>, AllocError> {
    match action {
        Action::Run(command) => uses_of_command(alloc, command),
        Action::Host(Entry::Write { buffer, .. }) => Ok(vec![in alloc; write(*buffer)]?),
        Action::Host(Entry::Read { buffer, .. }) => Ok(vec![in alloc; read(*buffer)]?),
        Action::Host(Entry::Destroy { resource }) => Ok(vec![in alloc; write(*resource)]?),
        _ => Ok(Vec::new(alloc)),
    }
}

fn uses_of_command(alloc: Global, command: &Cmd) -> Result<Vec<Use>, AllocError> {
    match command {
        Cmd::Fill { buffer, .. } | Cmd::Update { buffer, .. } => {
            Ok(vec![in alloc; write(*buffer)]?)
        }
        Cmd::Copy {
            source,
            destination,
            ..
        }
        | Cmd::CopyImage {
            source,
            destination,
            ..
        } => Ok(vec![in alloc; read(*source), write(*destination)]?),
        Cmd::Clear { image, .. } => Ok(vec![in alloc; write(*image)]?),
        Cmd::CopyIn { buffer, image, .. } => Ok(vec![in alloc; read(*buffer), write(*image)]?),
        Cmd::CopyOut { image, buffer, .. } => Ok(vec![in alloc; read(*image), write(*buffer)]?),
        Cmd::Barrier { elements } => uses_of_elements(alloc, elements.as_slice()),
        Cmd::Set { .. } | Cmd::Await { .. } => Ok(Vec::new(alloc)),
    }
}

fn uses_of_elements(alloc: Global, elements: &[Element]) -> Result<Vec<Use>, AllocError> {
    let mut uses = Vec::new(alloc);
    for element in elements {
        match element {
            Element::Memory(_) => {}
            Element::Buffer(range) => uses.push(read(range.buffer))?,
            Element::Image(range) if range.old_layout == range.new_layout => {
                uses.push(read(range.image))?;
            }
            Element::Image(range) => uses.push(write(range.image))?,
        }
    }
    Ok(uses)
}

/// Whether some resource is named by both, and written by one of them.
pub fn meet(first: &[Use], second: &[Use]) -> bool {
    for one in first {
        for other in second {
            if one.resource == other.resource && (one.is_write || other.is_write) {
                return true;
            }
        }
    }
    false
}

/// Whether a resource is named.
pub fn has(uses: &[Use], resource: u32) -> bool {
    for one in uses {
        if one.resource == resource {
            return true;
        }
    }
    false
}

/// Whether something is written.
pub fn writes(uses: &[Use]) -> bool {
    for one in uses {
        if one.is_write {
            return true;
        }
    }
    false
}
