use crate::cases::{Candidates, Case, place_of};
use crate::pieces::one_layout;
use std::alloc::AllocError;
use vk_model::{Action, Cmd, Element, Layout, Sequence};

/// Transitions of some images before the point that keep the contents, in place of those that lose them.
pub fn kept_contents(
    case: &Case<'_>,
    images: &[u32],
    found: &mut Candidates,
) -> Result<(), AllocError> {
    for (index, point) in case.earlier.iter().enumerate() {
        if let Action::Run(Cmd::Barrier { elements }) = point.action {
            let then = case.at(index, point);
            if let Some(kept) = keeping(&then, images, elements.as_slice())? {
                let mut edits = case.edits();
                edits.replace_command(place_of(point), kept)?;
                found.add(edits)?;
            }
        }
    }
    Ok(())
}

/// A barrier with the current layouts in place of UNDEFINED, where there are others.
fn keeping(
    case: &Case<'_>,
    images: &[u32],
    elements: &[Element],
) -> Result<Option<Cmd>, AllocError> {
    let mut all = Vec::new(case.alloc);
    let mut is_changed = false;
    for element in elements {
        match element {
            Element::Image(range) if range.old_layout == Layout::UNDEFINED => {
                let mut kept = *range;
                if images.contains(&range.image) {
                    if let Some(layout) = one_layout(case, range.image, &range.range) {
                        is_changed = is_changed || layout != Layout::UNDEFINED;
                        kept.old_layout = layout;
                    }
                }
                all.push(Element::Image(kept))?;
            }
            other => all.push(*other)?,
        }
    }
    if !is_changed {
        return Ok(None);
    }
    Ok(Some(Cmd::Barrier {
        elements: Sequence::new(all),
    }))
}
