use crate::edits::{Change, Edit, Member};
use std::alloc::{AllocError, Global};
use vk_model::{
    Accesses, BufferElement, Cmd, Dependency, Duplicate, Element, Entry, Families, ImageElement,
    Sequence, Stages,
};

/// In so many ways a barrier is made less.
pub const STEPS: usize = 4;

/// Equal edits. The only error is want of memory.
pub fn copy_of_edits(alloc: Global, edits: &[Edit]) -> Result<Vec<Edit>, AllocError> {
    let mut all = Vec::new(alloc);
    for edit in edits {
        all.push(copy_of_edit(edit)?)?;
    }
    Ok(all)
}

fn copy_of_edit(edit: &Edit) -> Result<Edit, AllocError> {
    match edit {
        Edit::Entry {
            change,
            number,
            entry,
        } => Ok(Edit::Entry {
            change: *change,
            number: *number,
            entry: entry.duplicate()?,
        }),
        Edit::Remove { number } => Ok(Edit::Remove { number: *number }),
        Edit::Member { change, at, member } => Ok(Edit::Member {
            change: *change,
            at: *at,
            member: copy_of_member(member)?,
        }),
    }
}

fn copy_of_member(member: &Member) -> Result<Member, AllocError> {
    match member {
        Member::Wait(wait) => Ok(Member::Wait(*wait)),
        Member::Command(command) => Ok(Member::Command(command.duplicate()?)),
        Member::Signal(signal) => Ok(Member::Signal(*signal)),
    }
}

/// Whether the trace asks for as much without an edit: what is moved or taken apart stays whole, and
/// what is destroyed is.
pub fn may_go(edits: &[Edit], number: usize) -> bool {
    match edits.get(number) {
        Some(
            Edit::Entry {
                change: Change::Insert,
                entry: Entry::Destroy { .. },
                ..
            },
        ) => false,
        Some(
            Edit::Entry {
                change: Change::Insert,
                ..
            },
        ) => !has_removal(edits),
        Some(
            Edit::Member {
                change: Change::Insert,
                member: Member::Command(command),
                ..
            },
        ) => matches!(command, Cmd::Barrier { .. }),
        Some(Edit::Remove { .. }) => false,
        _ => true,
    }
}

/// Whether an entry is taken out.
pub fn has_removal(edits: &[Edit]) -> bool {
    for edit in edits {
        if let Edit::Remove { .. } = edit {
            return true;
        }
    }
    false
}

/// The edits without one of them. The only error is want of memory.
pub fn without_edit(alloc: Global, edits: &[Edit], number: usize) -> Result<Vec<Edit>, AllocError> {
    let mut fewer = Vec::new(alloc);
    for (place, edit) in edits.iter().enumerate() {
        if place != number {
            fewer.push(copy_of_edit(edit)?)?;
        }
    }
    Ok(fewer)
}

/// The edits with one access less in a barrier that one of them inserts; none where it hasn't that access. The only error is want of memory.
pub fn with_less(
    alloc: Global,
    edits: &[Edit],
    number: usize,
    step: usize,
) -> Result<Option<Vec<Edit>>, AllocError> {
    let mut is_less = false;
    let mut all = Vec::new(alloc);
    for (place, edit) in edits.iter().enumerate() {
        let less = match edit {
            Edit::Member {
                change: Change::Insert,
                at,
                member: Member::Command(Cmd::Barrier { elements }),
            } if place == number => match lesser(alloc, elements.as_slice(), step)? {
                Some(elements) => Some(Edit::Member {
                    change: Change::Insert,
                    at: *at,
                    member: Member::Command(Cmd::Barrier { elements }),
                }),
                None => None,
            },
            _ => None,
        };
        match less {
            Some(less) => {
                is_less = true;
                all.push(less)?;
            }
            None => all.push(copy_of_edit(edit)?)?,
        }
    }
    Ok(if is_less { Some(all) } else { None })
}

/// Elements with one access less each; none where no element has less then.
fn lesser(
    alloc: Global,
    elements: &[Element],
    step: usize,
) -> Result<Option<Sequence<Element>>, AllocError> {
    let mut all = Vec::new(alloc);
    let mut is_less = false;
    for element in elements {
        let less = less_of(element, step);
        is_less = is_less || less != *element;
        all.push(less)?;
    }
    Ok(if is_less {
        Some(Sequence::new(all))
    } else {
        None
    })
}

/// An element with one access less; a half of a transfer of ownership keeps what it has.
fn less_of(element: &Element, step: usize) -> Element {
    match element {
        Element::Memory(dependency) => Element::Memory(less_by(*dependency, step)),
        Element::Buffer(range) => Element::Buffer(BufferElement {
            dependency: less_within(range.families, range.dependency, step),
            ..*range
        }),
        Element::Image(range) => Element::Image(ImageElement {
            dependency: less_within(range.families, range.dependency, step),
            ..*range
        }),
    }
}

/// The same of the dependency of an element with these families.
fn less_within(families: Families, dependency: Dependency, step: usize) -> Dependency {
    if families.source == families.destination {
        less_by(dependency, step)
    } else {
        dependency
    }
}

/// A dependency with one access less: a read after it, a write after it, a write before it; or without
/// stages before it, where it has no access there.
fn less_by(dependency: Dependency, step: usize) -> Dependency {
    let before = dependency.source_accesses.0;
    let after = dependency.destination_accesses.0;
    let reads = Accesses::TRANSFER_READ.0;
    let writes = Accesses::TRANSFER_WRITE.0;
    match step {
        0 => Dependency {
            destination_accesses: Accesses(after & !reads),
            ..dependency
        },
        1 => Dependency {
            destination_accesses: Accesses(after & !writes),
            ..dependency
        },
        2 => Dependency {
            source_accesses: Accesses(before & !writes),
            ..dependency
        },
        _ if before == 0 => Dependency {
            source_stages: Stages(0),
            ..dependency
        },
        _ => dependency,
    }
}
