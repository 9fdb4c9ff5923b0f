use crate::cases::{Candidates, Case, place_of};
use std::alloc::AllocError;
use vk_model::{Action, Cmd, Dependency, Element, Entry, Sequence};

/// An equal list of elements.
fn same(case: &Case<'_>, elements: &[Dependency]) -> Result<Sequence<Dependency>, AllocError> {
    let mut all = Vec::new(case.alloc);
    for element in elements {
        all.push(*element)?;
    }
    Ok(Sequence::new(all))
}

/// The set and the await have the elements of the one that has more, or else of the other one.
pub fn event_dependency(case: &Case<'_>, found: &mut Candidates) -> Result<(), AllocError> {
    let Action::Run(
        Cmd::Await {
            event,
            elements: awaited,
        },
    ) = case.refused.action
    else {
        return Ok(());
    };
    for point in case.earlier {
        if let Action::Run(
            Cmd::Set {
                event: other,
                elements: set,
            },
        ) = point.action
        {
            if other == event {
                let as_awaited = Cmd::Set {
                    event: *event,
                    elements: same(case, awaited.as_slice())?,
                };
                let as_set = Cmd::Await {
                    event: *event,
                    elements: same(case, set.as_slice())?,
                };
                let mut of_set = case.edits();
                of_set.replace_command(place_of(point), as_awaited)?;
                let mut of_await = case.edits();
                of_await.replace_command(place_of(&case.refused), as_set)?;
                if set.len() < awaited.len() {
                    found.add(of_set)?;
                    found.add(of_await)?;
                } else {
                    found.add(of_await)?;
                    found.add(of_set)?;
                }
            }
        }
    }
    Ok(())
}

/// A set right before the await, or a barrier in its place; an event of its own for a second set.
pub fn event_state(case: &Case<'_>, found: &mut Candidates) -> Result<(), AllocError> {
    let place = place_of(&case.refused);
    match case.refused.action {
        Action::Run(Cmd::Await { event, elements }) => {
            let mut edits = case.edits();
            let set = Cmd::Set {
                event: *event,
                elements: same(case, elements.as_slice())?,
            };
            edits.insert_command(place, set)?;
            found.add(edits)?;
            let mut all = Vec::new(case.alloc);
            for element in elements.as_slice() {
                all.push(Element::Memory(*element))?;
            }
            let mut edits = case.edits();
            let elements = Sequence::new(all);
            edits.replace_command(place, Cmd::Barrier { elements })?;
            found.add(edits)
        }
        Action::Run(Cmd::Set { elements, .. }) => {
            let event = case.fresh_id(0);
            let elements = same(case, elements.as_slice())?;
            let mut edits = case.edits();
            edits.insert(case.refused.entry, Entry::Event { id: event })?;
            edits.replace_command(place, Cmd::Set { event, elements })?;
            found.add(edits)
        }
        _ => Ok(()),
    }
}
