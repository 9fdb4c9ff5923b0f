ghost use Rattle.std.specs.Prelude.{◌≡◌, ◌∷◌, [], ◌++◌, IfOk, OnOk, map};
ghost use Rattle.std.specs.List.{flat_map};
ghost use Rattle.vk_model.specs.Rules.Ids as ids;
ghost use Rattle.vk_model.specs.Trace.PointViews.{action_of};
ghost use Rattle.vk_hazards.specs.Lives.{asked_of, kind_test};

use std::alloc::{AllocError, Global};
use vk_model::{Action, Cmd, Element, Entry, Place, SemaphoreValue};

/// What an object is.
#[derive(Clone, Copy, Debug, PartialEq, Eq)]
pub enum ObjectKind {
    /// A buffer.
    Buffer,
    /// An image.
    Image,
    /// A buffer or an image.
    Resource,
    /// A pool.
    Pool,
    /// A memory object.
    Memory,
    /// A semaphore.
    Semaphore,
    /// An event.
    Event,
    /// A defragmentation.
    Defrag,
}

impl ObjectKind {
    /// Whether an entry makes an object of this kind.
    pub fn is_of(self, entry: &Entry) -> bool
        ensures { result ≡ kind_test self entry.now }
    {
        match self {
            ObjectKind::Buffer => matches!(entry, Entry::Buffer { .. }),
            ObjectKind::Image => matches!(entry, Entry::Image { .. }),
            ObjectKind::Resource => matches!(entry, Entry::Buffer { .. } | Entry::Image { .. }),
            ObjectKind::Pool => matches!(entry, Entry::Pool { .. }),
            ObjectKind::Memory => matches!(entry, Entry::Memory { .. }),
            ObjectKind::Semaphore => matches!(entry, Entry::Semaphore { .. }),
            ObjectKind::Event => matches!(entry, Entry::Event { .. }),
            ObjectKind::Defrag => matches!(entry, Entry::Defrag { .. }),
        }
    }
}

/// An id that a point names, and what it is to be.
#[derive(Clone, Copy, Debug, PartialEq, Eq)]
pub struct Asked {
    /// The id.
    pub id: u32,
    /// What it is to be.
    pub kind: ObjectKind,
}

/// The ids that a point names.
pub fn asked_by(alloc: Global, action: Action<'_>) -> Result<Vec<Asked>, AllocError>
    ensures { IfOk result (λ all. map asked_of all.items ≡ ids.asked_by (action_of action.entry)) }
{
    match action {
        Action::Host(entry) => asked_by_entry(alloc, entry),
        Action::Wait(submit) => one(alloc, submit.semaphore, ObjectKind::Semaphore),
        Action::Run(command) => asked_by_command(alloc, command),
        Action::Signal(submit) => one(alloc, submit.semaphore, ObjectKind::Semaphore),
    }
}

fn asked_by_entry(alloc: Global, entry: &Entry) -> Result<Vec<Asked>, AllocError>
    ensures { IfOk result (λ all. map asked_of all.items ≡ ids.asked_by_entry entry.now) }
{
    match entry {
        Entry::Buffer { info, .. } => asked_by_place(alloc, info.place),
        Entry::Image { info, .. } => asked_by_place(alloc, info.place),
        Entry::Free { memory } => one(alloc, *memory, ObjectKind::Memory),
        Entry::Destroy { resource } => one(alloc, *resource, ObjectKind::Resource),
        Entry::DropPool { pool } => one(alloc, *pool, ObjectKind::Pool),
        Entry::Map { buffer } => one(alloc, *buffer, ObjectKind::Buffer),
        Entry::Unmap { buffer } => one(alloc, *buffer, ObjectKind::Buffer),
        Entry::Write { buffer, .. } => one(alloc, *buffer, ObjectKind::Buffer),
        Entry::Read { buffer, .. } => one(alloc, *buffer, ObjectKind::Buffer),
        Entry::Flush { buffer, .. } => one(alloc, *buffer, ObjectKind::Buffer),
        Entry::Invalidate { buffer, .. } => one(alloc, *buffer, ObjectKind::Buffer),
        Entry::Signal { semaphore, .. } => one(alloc, *semaphore, ObjectKind::Semaphore),
        Entry::Wait { waits } => asked_by_waits(alloc, waits.as_slice()),
        Entry::Defrag { pool, .. } => one(alloc, *pool, ObjectKind::Pool),
        Entry::Pass { defrag } => one(alloc, *defrag, ObjectKind::Defrag),
        Entry::EndPass {
            defrag,
            ignored,
            destroyed,
        } => asked_by_end(alloc, *defrag, ignored.as_slice(), destroyed.as_slice()),
        Entry::EndDefrag { defrag } => one(alloc, *defrag, ObjectKind::Defrag),
        _ => Ok(Vec::new(alloc)),
    }
}

fn one(alloc: Global, id: u32, kind: ObjectKind) -> Result<Vec<Asked>, AllocError>
    ensures { IfOk result (λ all. map asked_of all.items ≡ (id, kind_test kind) ∷ []) }
{
    let mut all = Vec::new(alloc);
    all.push(Asked { id, kind })?;
    Ok(all)
}

fn two(alloc: Global, first: Asked, second: Asked) -> Result<Vec<Asked>, AllocError>
    ensures { IfOk result (λ all. map asked_of all.items ≡ asked_of first ∷ asked_of second ∷ []) }
{
    let mut all = Vec::new(alloc);
    all.push(first)?;
    all.push(second)?;
    Ok(all)
}

fn asked_by_place(alloc: Global, place: Place) -> Result<Vec<Asked>, AllocError>
    ensures { IfOk result (λ all. map asked_of all.items ≡ ids.asked_by_place place) }
{
    match place {
        Place::Dedicated { .. } => Ok(Vec::new(alloc)),
        Place::Pool { pool } => one(alloc, pool, ObjectKind::Pool),
        Place::PoolUpper { pool } => one(alloc, pool, ObjectKind::Pool),
        Place::Memory { memory, .. } => one(alloc, memory, ObjectKind::Memory),
    }
}

fn asked_by_waits(alloc: Global, waits: &[SemaphoreValue]) -> Result<Vec<Asked>, AllocError>
    ensures { IfOk result (λ all. map asked_of all.items ≡ map (λ w. (w.semaphore, ids.is_semaphore)) waits.now) }
{
    let mut all = Vec::new(alloc);
    for wait in waits {
        all.push(Asked {
            id: wait.semaphore,
            kind: ObjectKind::Semaphore,
        })?;
    }
    Ok(all)
}

fn asked_by_end(
    alloc: Global,
    defrag: u32,
    ignored: &[u32],
    destroyed: &[u32],
) -> Result<Vec<Asked>, AllocError>
    ensures { IfOk result (λ all. map asked_of all.items ≡ (defrag, ids.is_defrag) ∷ map (λ r. (r, ids.is_resource)) (ignored.now ++ destroyed.now)) }
{
    let mut all = one(alloc, defrag, ObjectKind::Defrag)?;
    push_resources(&mut all, ignored)?;
    push_resources(&mut all, destroyed)?;
    Ok(all)
}

fn push_resources(all: &mut Vec<Asked>, resources: &[u32]) -> Result<(), AllocError>
    ensures { OnOk result (map asked_of all.new.items ≡ map asked_of all.old.items ++ map (λ r. (r, ids.is_resource)) resources.now) }
{
    for resource in resources {
        all.push(Asked {
            id: *resource,
            kind: ObjectKind::Resource,
        })?;
    }
    Ok(())
}

fn asked_by_command(alloc: Global, command: &Cmd) -> Result<Vec<Asked>, AllocError>
    ensures { IfOk result (λ all. map asked_of all.items ≡ ids.asked_by_command command.now) }
{
    match command {
        Cmd::Fill { buffer, .. } => one(alloc, *buffer, ObjectKind::Buffer),
        Cmd::Update { buffer, .. } => one(alloc, *buffer, ObjectKind::Buffer),
        Cmd::Copy {
            source,
            destination,
            ..
        } => two(alloc, buffer(*source), buffer(*destination)),
        Cmd::Clear { image, .. } => one(alloc, *image, ObjectKind::Image),
        Cmd::CopyIn {
            buffer: source,
            image: destination,
            ..
        } => two(alloc, buffer(*source), image(*destination)),
        Cmd::CopyOut {
            image: source,
            buffer: destination,
            ..
        } => two(alloc, image(*source), buffer(*destination)),
        Cmd::CopyImage {
            source,
            destination,
            ..
        } => two(alloc, image(*source), image(*destination)),
        Cmd::Barrier { elements } => asked_by_elements(alloc, elements.as_slice()),
        Cmd::Set { event, .. } => one(alloc, *event, ObjectKind::Event),
        Cmd::Await { event, .. } => one(alloc, *event, ObjectKind::Event),
    }
}

fn buffer(id: u32) -> Asked
    ensures { asked_of result ≡ (id, ids.is_buffer) }
{
    Asked {
        id,
        kind: ObjectKind::Buffer,
    }
}

fn image(id: u32) -> Asked
    ensures { asked_of result ≡ (id, ids.is_image) }
{
    Asked {
        id,
        kind: ObjectKind::Image,
    }
}

fn asked_by_elements(alloc: Global, elements: &[Element]) -> Result<Vec<Asked>, AllocError>
    ensures { IfOk result (λ all. map asked_of all.items ≡ flat_map ids.asked_by_element elements.now) }
{
    let mut all = Vec::new(alloc);
    for element in elements {
        push_element(&mut all, element)?;
    }
    Ok(all)
}

fn push_element(all: &mut Vec<Asked>, element: &Element) -> Result<(), AllocError>
    ensures { OnOk result (map asked_of all.new.items ≡ map asked_of all.old.items ++ ids.asked_by_element element.now) }
{
    match element {
        Element::Memory(_) => Ok(()),
        Element::Buffer(on_buffer) => push(all, buffer(on_buffer.buffer)),
        Element::Image(on_image) => push(all, image(on_image.image)),
    }
}

fn push(all: &mut Vec<Asked>, asked: Asked) -> Result<(), AllocError>
    ensures { OnOk result (map asked_of all.new.items ≡ map asked_of all.old.items ++ asked_of asked ∷ []) }
{
    all.push(asked)?;
    Ok(())
}
