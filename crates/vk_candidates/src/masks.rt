use crate::cases::{Candidates, Case, place_of};
use crate::edits::Change;
use std::alloc::AllocError;
use vk_model::{Accesses, Action, Cmd, Dependency, Element, SemaphoreSubmit, Sequence, Stages};

/// The bits of accesses of transfers.
const TRANSFERS: u32 = 6144;
/// The bits of accesses of the host.
const HOSTS: u32 = 24576;
/// The bits of stages that make accesses of transfers.
const DEVICE: u32 = 69632;
/// All bits of stages.
const ALL_STAGES: u32 = 86016;
/// All bits of accesses.
const ALL_ACCESSES: u32 = 129_024;

/// How masks are mended.
#[derive(Clone, Copy)]
enum Mending {
    /// Stages come that make the accesses.
    MoreStages,
    /// Accesses go that no stage makes.
    FewerAccesses,
}

/// Stages and accesses that fit each other.
pub fn stage(case: &Case<'_>, found: &mut Candidates) -> Result<(), AllocError> {
    match case.refused.action {
        Action::Run(command) => {
            mended_command(case, command, Mending::MoreStages, found)?;
            mended_command(case, command, Mending::FewerAccesses, found)
        }
        Action::Wait(wait) => {
            let mut edits = case.edits();
            edits.wait(Change::Replace, place_of(&case.refused), on_device(wait))?;
            found.add(edits)
        }
        Action::Signal(signal) => {
            let mut edits = case.edits();
            edits.signal(Change::Replace, place_of(&case.refused), on_device(signal))?;
            found.add(edits)
        }
        Action::Host(_) => Ok(()),
    }
}

/// A wait or signal of a batch, of stages that a queue has.
fn on_device(submit: &SemaphoreSubmit) -> SemaphoreSubmit {
    SemaphoreSubmit {
        semaphore: submit.semaphore,
        value: submit.value,
        stages: Stages::ALL_COMMANDS,
    }
}

fn mended_command(
    case: &Case<'_>,
    command: &Cmd,
    mending: Mending,
    found: &mut Candidates,
) -> Result<(), AllocError> {
    let mended = match command {
        Cmd::Barrier { elements } => {
            let mut all = Vec::new(case.alloc);
            for element in elements.as_slice() {
                all.push(mended_element(*element, mending))?;
            }
            Cmd::Barrier {
                elements: Sequence::new(all),
            }
        }
        Cmd::Set { event, elements } => Cmd::Set {
            event: *event,
            elements: mended_all(case, elements.as_slice(), mending)?,
        },
        Cmd::Await { event, elements } => Cmd::Await {
            event: *event,
            elements: mended_all(case, elements.as_slice(), mending)?,
        },
        _ => return Ok(()),
    };
    let mut edits = case.edits();
    edits.replace_command(place_of(&case.refused), mended)?;
    found.add(edits)
}

/// The elements of an event, whose first scope hasn't the host.
fn mended_all(
    case: &Case<'_>,
    elements: &[Dependency],
    mending: Mending,
) -> Result<Sequence<Dependency>, AllocError> {
    let mut all = Vec::new(case.alloc);
    for element in elements {
        let mut mended = *element;
        mended.source_stages = Stages(mended.source_stages.0 & DEVICE);
        mended.source_accesses = Accesses(mended.source_accesses.0 & !HOSTS);
        all.push(mended_dependency(mended, mending))?;
    }
    Ok(Sequence::new(all))
}

fn mended_element(element: Element, mending: Mending) -> Element {
    match element {
        Element::Memory(dependency) => Element::Memory(mended_dependency(dependency, mending)),
        Element::Buffer(mut range) => {
            range.dependency = mended_dependency(range.dependency, mending);
            Element::Buffer(range)
        }
        Element::Image(mut range) => {
            range.dependency = mended_dependency(range.dependency, mending);
            Element::Image(range)
        }
    }
}

fn mended_dependency(dependency: Dependency, mending: Mending) -> Dependency {
    let source = mended_scope(
        dependency.source_stages.0,
        dependency.source_accesses.0,
        mending,
    );
    let destination = mended_scope(
        dependency.destination_stages.0,
        dependency.destination_accesses.0,
        mending,
    );
    Dependency {
        source_stages: Stages(source.0),
        source_accesses: Accesses(source.1),
        destination_stages: Stages(destination.0),
        destination_accesses: Accesses(destination.1),
    }
}

fn mended_scope(stages: u32, accesses: u32, mending: Mending) -> (u32, u32) {
    let mut stages = stages & ALL_STAGES;
    let mut accesses = accesses & ALL_ACCESSES;
    let lacks_device = accesses & TRANSFERS != 0 && stages & DEVICE == 0;
    let lacks_host = accesses & HOSTS != 0 && stages & 16384 == 0;
    match mending {
        Mending::MoreStages => {
            if lacks_device {
                stages |= 4096;
            }
            if lacks_host {
                stages |= 16384;
            }
        }
        Mending::FewerAccesses => {
            if lacks_device {
                accesses &= !TRANSFERS;
            }
            if lacks_host {
                accesses &= !HOSTS;
            }
        }
    }
    (stages, accesses)
}
