ghost use Rattle.std.specs.Prelude.{◌≡◌, IfOk, filter_map};
ghost use Rattle.vk_model.specs.Basics.{some_pair};
ghost use Rattle.vk_model.specs.Rules.Ranges.{transitions_meet};
ghost use Rattle.vk_overlaps.specs.Inner.Places as places;

use crate::extents::Extent;
use crate::overlaps::overlap;
use crate::regions::range_at;
use std::alloc::{AllocError, Global};
use vk_model::Element;

/// Whether layout transitions of a barrier have a subresource in common. The only error is want of memory.
pub fn transitions_overlap(alloc: Global, elements: &[Element]) -> Result<bool, AllocError>
    ensures { IfOk result (λ found. found ≡ some_pair transitions_meet elements.now) }
{
    if elements.len() < 2 {
        return Ok(false);
    }
    let parts = parts_of(alloc, elements)?;
    overlap(alloc, parts.as_slice(), &[])
}

fn parts_of(alloc: Global, elements: &[Element]) -> Result<Vec<Extent>, AllocError>
    ensures { IfOk result (λ parts. parts.items ≡ filter_map places.transition_part elements.now) }
{
    elements.iter().filter_map(transition_part).collect(alloc)
}

/// Where a transition lies, if an element is one.
fn transition_part(element: &Element) -> Option<Extent>
    ensures { result ≡ places.transition_part element.now }
{
    match element {
        Element::Image(on_image) => {
            if on_image.old_layout == on_image.new_layout {
                None
            } else {
                Some(range_at(on_image.image, &on_image.range))
            }
        }
        _ => None,
    }
}
