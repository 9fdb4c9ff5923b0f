use crate::points::push_at_point;
use std::alloc::AllocError;
use vk_findings::{CurrentLayout, LayoutState, NamedLayout, OldLayout};
use vk_model::Layout;
use vk_rules::Transition;
use vk_words::push_layout;

/// LAYOUT: which layout is named wrongly.
pub fn push_layout_state(out: &mut String, state: LayoutState<'_>) -> Result<(), AllocError> {
    match state {
        LayoutState::Unallowed(named) => push_unallowed(out, named),
        LayoutState::Other(named) => push_other(out, named),
        LayoutState::Transition(bad) => push_bad(out, bad),
    }
}

fn push_unallowed(out: &mut String, named: NamedLayout<'_>) -> Result<(), AllocError> {
    out.push_str("names ")?;
    push_layout(out, Layout::new(named.part.layout))?;
    let allowed = if named.part.is_written {
        ", and what is written is in GENERAL or TRANSFER_DST_OPTIMAL; "
    } else {
        ", and what is read is in GENERAL or TRANSFER_SRC_OPTIMAL; "
    };
    out.push_str(allowed)?;
    push_current(out, named.part.image, named.found)
}

fn push_other(out: &mut String, named: NamedLayout<'_>) -> Result<(), AllocError> {
    out.push_str("names ")?;
    push_layout(out, Layout::new(named.part.layout))?;
    out.push_str("; ")?;
    push_current(out, named.part.image, named.found)
}

fn push_bad(out: &mut String, bad: Transition) -> Result<(), AllocError> {
    let element = bad.element;
    let image = bad.image;
    write!(out, "element {element} brings image {image} from ")?;
    push_layout(out, Layout::new(bad.old_layout))?;
    out.push_str(" to ")?;
    push_layout(out, Layout::new(bad.new_layout))?;
    out.push_str("; a transition is between known layouts, and none is to UNDEFINED")
}

/// OLD_LAYOUT: which subresource isn't in the old layout.
pub fn push_old_layout(out: &mut String, old: OldLayout<'_>) -> Result<(), AllocError> {
    let element = old.transition.element;
    write!(out, "element {element}: old layout ")?;
    push_layout(out, Layout::new(old.transition.old_layout))?;
    out.push_str("; ")?;
    push_current(out, old.transition.image, old.found)
}

/// Adds the layout that a subresource is in, and since when.
fn push_current(out: &mut String, image: u32, found: CurrentLayout<'_>) -> Result<(), AllocError> {
    let level = found.level;
    let layer = found.layer;
    write!(out, "level {level}, layer {layer} of image {image} is ")?;
    push_layout(out, Layout::new(found.layout))?;
    match found.since {
        Some(point) => push_at_point(out, " since ", point),
        None => out.push_str(" since the image was made"),
    }
}
