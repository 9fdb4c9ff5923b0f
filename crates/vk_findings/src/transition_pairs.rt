ghost use Rattle.std.specs.Prelude.{◌≡◌, IfOk, IfSome, is_some, map};
ghost use Rattle.vk_model.specs.Basics.{some_pair};
ghost use Rattle.vk_model.specs.Rules.Ranges.{transitions_meet};
ghost use Rattle.vk_model.specs.World.Ownership as ownership;
ghost use Rattle.vk_findings.specs.Inner.Areas.{area_of, transition_area};
ghost use Rattle.vk_findings.specs.Inner.Found.{IsOfElements};

use crate::areas::Area;
use crate::finder::Pair;
use crate::pairs::{Overlap, Part, pair_among};
use std::alloc::{AllocError, Global};
use vk_model::{Cmd, Element};

/// Two layout transitions of a barrier with a subresource in common.
pub fn transitions_overlap(
    alloc: Global,
    elements: &[Element],
) -> Result<Option<Overlap>, AllocError>
    ensures meet { IfOk result (λ found. is_some found ≡ some_pair transitions_meet elements.now) }
    ensures reported { IfOk result (λ found. IfSome found (IsOfElements elements.now)) }
{
    let areas = areas_of(alloc, elements)?;
    match pair_among(alloc, areas.as_slice())? {
        Some(pair) => Ok(Some(two_transitions(pair))),
        None => Ok(None),
    }
}

fn two_transitions(pair: Pair) -> Overlap
    ensures { result ≡ record { one = Part.Transition pair.one; other = Part.Transition pair.other; common = pair.common } }
{
    Overlap {
        one: Part::Transition(pair.one),
        other: Part::Transition(pair.other),
        common: pair.common,
    }
}

fn areas_of(alloc: Global, elements: &[Element]) -> Result<Vec<Area>, AllocError>
    ensures { IfOk result (λ areas. map area_of areas.items ≡ map transition_area elements.now) }
{
    let mut areas = Vec::with_capacity(alloc, elements.len())?;
    for element in elements {
        areas.push(area_by(element))?;
    }
    Ok(areas)
}

/// The subresources of a layout transition; of another element no bytes.
fn area_by(element: &Element) -> Area
    ensures { area_of result ≡ transition_area element.now }
{
    match element {
        Element::Image(on_image) if on_image.old_layout != on_image.new_layout => {
            Area::Subresources {
                image: on_image.image,
                range: on_image.range,
            }
        }
        _ => Area::Bytes {
            buffer: 0,
            offset: 0,
            size: 0,
        },
    }
}

/// The elements of a barrier; of another command none.
pub fn elements_of(command: &Cmd) -> &[Element]
    ensures { result.now ≡ ownership.elements_of command.now }
{
    match command {
        Cmd::Barrier { elements } => elements.as_slice(),
        _ => &[],
    }
}
