use crate::points::push_at_point;
use std::alloc::AllocError;
use vk_findings::{Holder, OwnerState, Ownership};
use vk_rules::OwnerFault;

/// OWNER_PAIR: who owns the resource of a release or an acquire.
pub fn push_transfer(out: &mut String, state: OwnerState<'_>) -> Result<(), AllocError> {
    let element = state.element;
    let resource = state.resource;
    let source = state.families.source;
    let destination = state.families.destination;
    write!(
        out,
        "element {element}, resource {resource} from family {source} to {destination}: "
    )?;
    out.push_str(fault_words(state.fault))?;
    push_owner(out, state.owned)
}

fn fault_words(fault: OwnerFault) -> &'static str {
    match fault {
        OwnerFault::UnknownFamily => "the families are 0 and 1",
        OwnerFault::Concurrent => "it is concurrent, so that no family owns it",
        OwnerFault::OtherQueue => "the queue is of neither family",
        OwnerFault::ReleasedTwice => "it is released already",
        OwnerFault::Unreleased => "it isn't released",
        OwnerFault::OtherHalf => "it is released to other families or with other layouts",
        OwnerFault::Unordered => "the release isn't known to come before",
    }
}

/// Adds who owns a resource, and since when.
fn push_owner(out: &mut String, owned: Ownership<'_>) -> Result<(), AllocError> {
    match owned.holder {
        Holder::Nobody => out.push_str("; nobody has owned it so far"),
        Holder::Family(family) => {
            write!(out, "; family {family} owns it")?;
            push_since(out, " since ", owned)
        }
        Holder::Released(family, _) => {
            write!(out, "; family {family} released it")?;
            push_since(out, " at ", owned)
        }
    }
}

fn push_since(out: &mut String, word: &str, owned: Ownership<'_>) -> Result<(), AllocError> {
    match owned.since {
        Some(point) => push_at_point(out, word, point),
        None => Ok(()),
    }
}
