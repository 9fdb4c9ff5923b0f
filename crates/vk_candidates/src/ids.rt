use std::alloc::{AllocError, Global};
use vk_model::{Action, Cmd, Element, Entry, Place};

/// What an id has to be.
#[derive(Clone, Copy, PartialEq, Eq)]
pub enum Kind {
    /// A buffer.
    Buffer,
    /// An image.
    Image,
    /// A memory object.
    Memory,
    /// A pool.
    Pool,
    /// A semaphore.
    Semaphore,
    /// An event.
    Event,
    /// A buffer or an image.
    Resource,
    /// A defragmentation.
    Defrag,
}

impl Kind {
    /// Whether what an entry makes is of this kind.
    pub fn is_of(self, entry: &Entry) -> bool {
        match (self, entry) {
            (Kind::Buffer | Kind::Resource, Entry::Buffer { .. })
            | (Kind::Image | Kind::Resource, Entry::Image { .. })
            | (Kind::Memory, Entry::Memory { .. })
            | (Kind::Pool, Entry::Pool { .. })
            | (Kind::Semaphore, Entry::Semaphore { .. })
            | (Kind::Event, Entry::Event { .. })
            | (Kind::Defrag, Entry::Defrag { .. }) => true,
            _ => false,
        }
    }
}

/// An id that a point names.
#[derive(Clone, Copy)]
pub struct Named {
    /// The id.
    pub id: u32,
    /// What it has to be.
    pub kind: Kind,
    /// The value that a semaphore is waited for at, else 0.
    pub value: u64,
}

fn naming(id: u32, kind: Kind) -> Named {
    Named { id, kind, value: 0 }
}

fn waited(id: u32, value: u64) -> Named {
    Named {
        id,
        kind: Kind::Semaphore,
        value,
    }
}

/// The ids that a point names, in order.
pub fn ids_of(alloc: Global, action: Action<'_>) -> Result<Vec<Named>, AllocError> {
    match action {
        Action::Host(entry) => ids_of_entry(alloc, entry),
        Action::Wait(wait) => Ok(vec![in alloc; waited(wait.semaphore, wait.value)]?),
        Action::Signal(signal) => Ok(vec![in alloc; naming(signal.semaphore, Kind::Semaphore)]?),
        Action::Run(command) => ids_of_command(alloc, command),
    }
}

/// The ids that an entry names itself, not those of its batches.
pub fn ids_of_entry(alloc: Global, entry: &Entry) -> Result<Vec<Named>, AllocError> {
    match entry {
        Entry::Buffer { info, .. } => ids_of_place(alloc, info.place),
        Entry::Image { info, .. } => ids_of_place(alloc, info.place),
        Entry::Free { memory } => Ok(vec![in alloc; naming(*memory, Kind::Memory)]?),
        Entry::DropPool { pool } | Entry::Defrag { pool, .. } => {
            Ok(vec![in alloc; naming(*pool, Kind::Pool)]?)
        }
        Entry::Destroy { resource } => Ok(vec![in alloc; naming(*resource, Kind::Resource)]?),
        Entry::Map { buffer }
        | Entry::Unmap { buffer }
        | Entry::Write { buffer, .. }
        | Entry::Read { buffer, .. }
        | Entry::Flush { buffer, .. }
        | Entry::Invalidate { buffer, .. } => Ok(vec![in alloc; naming(*buffer, Kind::Buffer)]?),
        Entry::Signal { semaphore, .. } => {
            Ok(vec![in alloc; naming(*semaphore, Kind::Semaphore)]?)
        }
        Entry::Wait { waits } => {
            let mut all = Vec::new(alloc);
            for wait in waits.as_slice() {
                all.push(waited(wait.semaphore, wait.value))?;
            }
            Ok(all)
        }
        Entry::Pass { defrag } | Entry::EndDefrag { defrag } => {
            Ok(vec![in alloc; naming(*defrag, Kind::Defrag)]?)
        }
        Entry::EndPass {
            defrag,
            ignored,
            destroyed,
        } => ids_of_end(alloc, *defrag, ignored.as_slice(), destroyed.as_slice()),
        _ => Ok(Vec::new(alloc)),
    }
}

/// The ids that an end of a pass names.
fn ids_of_end(
    alloc: Global,
    defrag: u32,
    ignored: &[u32],
    destroyed: &[u32],
) -> Result<Vec<Named>, AllocError> {
    let mut all = vec![in alloc; naming(defrag, Kind::Defrag)]?;
    for id in ignored {
        all.push(naming(*id, Kind::Resource))?;
    }
    for id in destroyed {
        all.push(naming(*id, Kind::Resource))?;
    }
    Ok(all)
}

fn ids_of_place(alloc: Global, place: Place) -> Result<Vec<Named>, AllocError> {
    match place {
        Place::Dedicated { .. } => Ok(Vec::new(alloc)),
        Place::Pool { pool } | Place::PoolUpper { pool } => {
            Ok(vec![in alloc; naming(pool, Kind::Pool)]?)
        }
        Place::Memory { memory, .. } => Ok(vec![in alloc; naming(memory, Kind::Memory)]?),
    }
}

/// The ids that a command names.
fn ids_of_command(alloc: Global, command: &Cmd) -> Result<Vec<Named>, AllocError> {
    match command {
        Cmd::Fill { buffer, .. } | Cmd::Update { buffer, .. } => {
            Ok(vec![in alloc; naming(*buffer, Kind::Buffer)]?)
        }
        Cmd::Copy {
            source,
            destination,
            ..
        } => pair(
            alloc,
            naming(*source, Kind::Buffer),
            naming(*destination, Kind::Buffer),
        ),
        Cmd::CopyImage {
            source,
            destination,
            ..
        } => pair(
            alloc,
            naming(*source, Kind::Image),
            naming(*destination, Kind::Image),
        ),
        Cmd::CopyIn { buffer, image, .. } | Cmd::CopyOut { buffer, image, .. } => {
            pair(
                alloc,
                naming(*buffer, Kind::Buffer),
                naming(*image, Kind::Image),
            )
        }
        Cmd::Clear { image, .. } => Ok(vec![in alloc; naming(*image, Kind::Image)]?),
        Cmd::Set { event, .. } | Cmd::Await { event, .. } => {
            Ok(vec![in alloc; naming(*event, Kind::Event)]?)
        }
        Cmd::Barrier { elements } => ids_of_elements(alloc, elements.as_slice()),
    }
}

fn pair(alloc: Global, first: Named, second: Named) -> Result<Vec<Named>, AllocError> {
    Ok(vec![in alloc; first, second]?)
}

fn ids_of_elements(alloc: Global, elements: &[Element]) -> Result<Vec<Named>, AllocError> {
    let mut all = Vec::new(alloc);
    for element in elements {
        match element {
            Element::Memory(_) => {}
            Element::Buffer(range) => all.push(naming(range.buffer, Kind::Buffer))?,
            Element::Image(range) => all.push(naming(range.image, Kind::Image))?,
        }
    }
    Ok(all)
}

/// Whether an entry names an id, in its batches too.
pub fn names(alloc: Global, entry: &Entry, id: u32) -> Result<bool, AllocError> {
    let Entry::Submit { batches, .. } = entry else {
        let all = ids_of_entry(alloc, entry)?;
        return Ok(has_id(all.as_slice(), id));
    };
    for batch in batches.as_slice() {
        for submit in batch.waits.as_slice() {
            if submit.semaphore == id {
                return Ok(true);
            }
        }
        for submit in batch.signals.as_slice() {
            if submit.semaphore == id {
                return Ok(true);
            }
        }
        for command in batch.commands.as_slice() {
            let all = ids_of_command(alloc, command)?;
            if has_id(all.as_slice(), id) {
                return Ok(true);
            }
        }
    }
    Ok(false)
}

/// Whether an id is among those that are named.
fn has_id(all: &[Named], id: u32) -> bool {
    for one in all {
        if one.id == id {
            return true;
        }
    }
    false
}
