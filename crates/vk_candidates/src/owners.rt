use crate::cases::{Candidates, Case, family_of, place_of};
use crate::halves::{all_of, half, nothing, with_families, written};
use crate::orders::{Ordering, order_after};
use crate::ownership::{Half, Owned, families_of, half_of, is_exclusive, owner_of};
use crate::stages::wider_after;
use std::alloc::AllocError;
use vk_model::{
    Action, BufferElement, Cmd, Element, Entry, Families, ImageElement, Length, Sequence,
};

/// The whole resource in place of a part, or no transfer of ownership.
pub fn owner_whole(case: &Case<'_>, found: &mut Candidates) -> Result<(), AllocError> {
    let Action::Run(Cmd::Barrier { elements }) = case.refused.action else {
        return Ok(());
    };
    let mut whole = Vec::new(case.alloc);
    for element in elements.as_slice() {
        whole.push(whole_resource(case, *element))?;
    }
    let mut edits = case.edits();
    let whole = Sequence::new(whole);
    edits.replace_command(place_of(&case.refused), Cmd::Barrier { elements: whole })?;
    found.add(edits)?;
    no_transfer(case, elements.as_slice(), found)
}

/// No transfer of ownership.
fn no_transfer(
    case: &Case<'_>,
    elements: &[Element],
    found: &mut Candidates,
) -> Result<(), AllocError> {
    let mut stays = Vec::new(case.alloc);
    for element in elements {
        stays.push(staying(*element))?;
    }
    let elements = Sequence::new(stays);
    let mut edits = case.edits();
    edits.replace_command(place_of(&case.refused), Cmd::Barrier { elements })?;
    found.add_weaker(edits)
}

/// The families of no transfer.
fn same_family() -> Families {
    Families {
        source: u32::MAX,
        destination: u32::MAX,
    }
}

fn staying(element: Element) -> Element {
    with_families(element, same_family())
}

fn whole_resource(case: &Case<'_>, element: Element) -> Element {
    match element {
        Element::Memory(dependency) => Element::Memory(dependency),
        Element::Buffer(range) => Element::Buffer(whole_buffer(range)),
        Element::Image(range) => Element::Image(whole_image(case, range)),
    }
}

fn whole_buffer(element: BufferElement) -> BufferElement {
    if element.families.source == element.families.destination {
        return element;
    }
    BufferElement {
        offset: 0,
        size: Length::Whole,
        ..element
    }
}

fn whole_image(case: &Case<'_>, element: ImageElement) -> ImageElement {
    if element.families.source == element.families.destination {
        return element;
    }
    match case.creator(element.image) {
        Some((_, Entry::Image { info, .. })) => ImageElement {
            range: all_of(info),
            ..element
        },
        _ => element,
    }
}

/// What becomes of an element, and what it needs.
#[derive(Clone, Copy)]
struct Plan {
    /// The element.
    element: Element,
    /// The place of the earlier point that it has to come after.
    after: Option<usize>,
    /// The release that has to come at the end of that point's batch.
    release: Option<Element>,
}

/// The element as it is.
fn kept(element: Element) -> Plan {
    Plan {
        element,
        after: None,
        release: None,
    }
}

/// The two halves of a transfer fit each other, the queue and the resource; the first comes before
/// the second, and is there.
pub fn owner_pair(case: &Case<'_>, found: &mut Candidates) -> Result<(), AllocError> {
    let Action::Run(Cmd::Barrier { elements }) = case.refused.action else {
        return Ok(());
    };
    let mut plans = Vec::new(case.alloc);
    for element in elements.as_slice() {
        plans.push(planned(case, *element)?)?;
    }
    by_plans(case, plans.as_slice(), Ordering::Nothing, found)?;
    let mut earlier = Vec::new(case.alloc);
    for plan in &plans {
        if let Some(index) = plan.after {
            earlier.push(index)?;
        }
    }
    wider_after(case, earlier.as_slice(), found)?;
    for ordering in [Ordering::Known, Ordering::New] {
        by_plans(case, plans.as_slice(), ordering, found)?;
    }
    no_transfer(case, elements.as_slice(), found)
}

fn planned(case: &Case<'_>, element: Element) -> Result<Plan, AllocError> {
    let Some((resource, families)) = families_of(&element) else {
        return Ok(kept(element));
    };
    let half = half_of(families, case.refused.queue);
    if half == Half::Neither {
        return Ok(kept(element));
    }
    let is_known = families.source < 2 && families.destination < 2;
    if half == Half::Strange || !is_known || !is_exclusive(case, resource) {
        return Ok(kept(staying(element)));
    }
    let owned = owner_of(case, resource)?;
    if half == Half::Release {
        return Ok(planned_release(case, element, owned));
    }
    Ok(planned_acquire(case, element, owned))
}

/// A release, or the acquire of what is released for the family, with its families the wrong way round.
fn planned_release(case: &Case<'_>, element: Element, owned: Owned) -> Plan {
    let Owned {
        family: _,
        release,
        last,
    } = owned;
    let own = family_of(case.refused.queue);
    match release {
        Some(release) => planned_second(own, element, release, last),
        None => kept(element),
    }
}

fn planned_acquire(case: &Case<'_>, element: Element, owned: Owned) -> Plan {
    let Owned {
        family,
        release,
        last,
    } = owned;
    let own = family_of(case.refused.queue);
    match (family, release) {
        (None, _) => kept(staying(element)),
        (Some(_), Some(release)) => planned_second(own, element, release, last),
        (Some(family), None) => planned_both(own, element, family, last),
    }
}

/// An acquire of what a family has released.
fn planned_second(own: u32, element: Element, release: Element, after: Option<usize>) -> Plan {
    if !is_for(&release, own) {
        return kept(staying(element));
    }
    Plan {
        element: as_released(element, release),
        after,
        release: None,
    }
}

/// Whether a release is for a family.
fn is_for(release: &Element, family: u32) -> bool {
    match families_of(release) {
        Some((_, families)) => families.destination == family,
        None => false,
    }
}

/// An acquire of what a family has not released.
fn planned_both(own: u32, element: Element, family: u32, after: Option<usize>) -> Plan {
    if family == own {
        return kept(staying(element));
    }
    let families = Families {
        source: family,
        destination: own,
    };
    let acquire = with_families(element, families);
    let release = half(&acquire, written(), nothing());
    Plan {
        element: acquire,
        after,
        release,
    }
}

/// The acquire, with the families and layouts of a release.
fn as_released(acquire: Element, release: Element) -> Element {
    match (acquire, release) {
        (Element::Buffer(second), Element::Buffer(first)) => Element::Buffer(BufferElement {
            families: first.families,
            ..second
        }),
        (Element::Image(second), Element::Image(first)) => Element::Image(ImageElement {
            families: first.families,
            old_layout: first.old_layout,
            new_layout: first.new_layout,
            ..second
        }),
        _ => acquire,
    }
}

fn by_plans(
    case: &Case<'_>,
    plans: &[Plan],
    ordering: Ordering,
    found: &mut Candidates,
) -> Result<(), AllocError> {
    let mut edits = case.edits();
    let mut all = Vec::new(case.alloc);
    let mut queues = Vec::new(case.alloc);
    for plan in plans {
        all.push(plan.element)?;
        if let Some(index) = plan.after {
            if let Some(earlier) = case.earlier.get(index) {
                if let Some(release) = plan.release {
                    let elements = Sequence::new(vec![in case.alloc; release]?);
                    edits.insert_command(case.commands_end(earlier), Cmd::Barrier { elements })?;
                }
                if !queues.contains(&earlier.queue) {
                    order_after(case, ordering, index, earlier, 0, &mut edits)?;
                    queues.push(earlier.queue)?;
                }
            }
        }
    }
    let elements = Sequence::new(all);
    edits.replace_command(place_of(&case.refused), Cmd::Barrier { elements })?;
    found.add(edits)
}
