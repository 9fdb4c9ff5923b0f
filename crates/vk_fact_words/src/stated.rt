use crate::known::push_some;
use crate::values::Values;
use std::alloc::AllocError;
use vk_findings::{
    Common, CurrentLayout, Holder, LayoutState, MapState, MovingResource, NamedLayout, NoPass,
    OldLayout, OpenDefrag, OpenPass, Overlap, OwnerState, Ownership, Part, PassFact, PassState,
    State,
};
use vk_rules::{Aliased, OwnerFault, Transition};

/// Adds in which state a point finds an object, and since when.
pub fn push_state_values(out: &mut Values<'_>, state: State<'_>) -> Result<(), AllocError> {
    match state {
        State::Layout(LayoutState::Unallowed(named)) => push_named(out, named),
        State::Layout(LayoutState::Other(named)) => push_named(out, named),
        State::Layout(LayoutState::Transition(transition)) => push_transition(out, transition),
        State::OldLayout(old) => push_old_layout(out, old),
        State::MapState(mapping) => push_mapping(out, mapping),
        State::EventState(event) => {
            out.number("event", u64::from(event.event))?;
            push_some(out, "set", event.set)
        }
        State::EventDependency(event) => {
            out.number("event", u64::from(event.event))?;
            push_some(out, "set", event.set)?;
            out.number("element", event.element as u64)
        }
        State::SignalOrder(signal) => {
            out.number("semaphore", u64::from(signal.semaphore))?;
            out.number("value", signal.value)?;
            out.point("last_signal", signal.last)?;
            out.number("last_value", signal.last_value)
        }
        State::OwnerPair(owner) => push_transfer(out, owner),
        State::Aliased(aliased) => push_aliased(out, aliased),
    }
}

fn push_named(out: &mut Values<'_>, named: NamedLayout<'_>) -> Result<(), AllocError> {
    out.number("image", u64::from(named.part.image))?;
    out.layout("layout", named.part.layout)?;
    out.truth("written", named.part.is_written)?;
    push_current(out, named.found)
}

fn push_transition(out: &mut Values<'_>, transition: Transition) -> Result<(), AllocError> {
    out.number("element", transition.element as u64)?;
    out.number("image", u64::from(transition.image))?;
    out.layout("old_layout", transition.old_layout)?;
    out.layout("new_layout", transition.new_layout)
}

fn push_old_layout(out: &mut Values<'_>, old: OldLayout<'_>) -> Result<(), AllocError> {
    push_transition(out, old.transition)?;
    push_current(out, old.found)
}

fn push_current(out: &mut Values<'_>, found: CurrentLayout<'_>) -> Result<(), AllocError> {
    out.number("level", found.level)?;
    out.number("layer", found.layer)?;
    out.layout("current", found.layout)?;
    push_some(out, "since", found.since)
}

fn push_mapping(out: &mut Values<'_>, mapping: MapState<'_>) -> Result<(), AllocError> {
    out.number("resource", u64::from(mapping.found.resource))?;
    if let Some(memory) = mapping.found.memory {
        out.number("memory", u64::from(memory))?;
    }
    out.number("maps", mapping.maps as u64)?;
    out.number("unmaps", mapping.unmaps as u64)?;
    push_some(out, "since", mapping.since)
}

fn push_transfer(out: &mut Values<'_>, owner: OwnerState<'_>) -> Result<(), AllocError> {
    out.number("element", owner.element as u64)?;
    out.number("resource", u64::from(owner.resource))?;
    out.number("source_family", u64::from(owner.families.source))?;
    out.number("destination_family", u64::from(owner.families.destination))?;
    out.word(
        "fault",
        match owner.fault {
            OwnerFault::UnknownFamily => "unknown_family",
            OwnerFault::Concurrent => "concurrent",
            OwnerFault::OtherQueue => "other_queue",
            OwnerFault::ReleasedTwice => "released_twice",
            OwnerFault::Unreleased => "unreleased",
            OwnerFault::OtherHalf => "other_half",
            OwnerFault::Unordered => "unordered",
        },
    )?;
    push_owner(out, owner.owned)
}

fn push_owner(out: &mut Values<'_>, owned: Ownership<'_>) -> Result<(), AllocError> {
    match owned.holder {
        Holder::Nobody => Ok(()),
        Holder::Family(family) => {
            out.number("owner", u64::from(family))?;
            push_some(out, "owner_since", owned.since)
        }
        Holder::Released(family, _) => {
            out.number("released_by", u64::from(family))?;
            push_some(out, "released_at", owned.since)
        }
    }
}

fn push_aliased(out: &mut Values<'_>, aliased: Aliased) -> Result<(), AllocError> {
    out.number("memory", u64::from(aliased.memory))?;
    out.number("offset", aliased.offset)?;
    out.number("bytes", aliased.size)?;
    out.number("other", u64::from(aliased.other))?;
    out.number("other_offset", aliased.other_offset)?;
    out.number("other_bytes", aliased.other_size)?;
    out.word("shared", if aliased.by_bytes { "bytes" } else { "page" })
}

/// Adds which pass, defragmentation or command a point doesn't fit.
pub fn push_pass_values(out: &mut Values<'_>, fact: PassFact<'_>) -> Result<(), AllocError> {
    match fact {
        PassFact::State(PassState::Defrag(defrag)) => push_defrag(out, defrag),
        PassFact::State(PassState::Pass(pass)) => push_pass(out, pass),
        PassFact::State(PassState::NoPass(none)) => push_no_pass(out, none),
        PassFact::State(PassState::Moving(moving)) => push_moving(out, moving),
        PassFact::Busy(busy) => {
            out.number("resource", u64::from(busy.resource))?;
            out.number("pool", u64::from(busy.pool))?;
            out.place("used_by", busy.command)?;
            out.truth("started", busy.is_started)
        }
        PassFact::Write(moving) => push_moving(out, moving),
    }
}

fn push_defrag(out: &mut Values<'_>, defrag: OpenDefrag<'_>) -> Result<(), AllocError> {
    out.number("defragmentation", u64::from(defrag.defrag))?;
    out.number("pool", u64::from(defrag.pool))?;
    out.point("begun", defrag.begun)
}

fn push_pass(out: &mut Values<'_>, pass: OpenPass<'_>) -> Result<(), AllocError> {
    out.number("pass_of", u64::from(pass.defrag))?;
    out.point("begun", pass.begun)
}

fn push_no_pass(out: &mut Values<'_>, none: NoPass<'_>) -> Result<(), AllocError> {
    out.number("defragmentation", u64::from(none.defrag))?;
    match none.other {
        Some(pass) => push_pass(out, pass),
        None => Ok(()),
    }
}

fn push_moving(out: &mut Values<'_>, moving: MovingResource<'_>) -> Result<(), AllocError> {
    out.number("resource", u64::from(moving.resource))?;
    out.number("pool", u64::from(moving.pool))?;
    push_pass(out, moving.pass)
}

/// Adds two parts of a point that overlap, and what lies in both.
pub fn push_overlap_values(out: &mut Values<'_>, overlap: Overlap) -> Result<(), AllocError> {
    push_overlapping(out, ("one", "one_is"), overlap.one)?;
    push_overlapping(out, ("other", "other_is"), overlap.other)?;
    match overlap.common {
        Common::Byte { buffer, at } => {
            out.number("buffer", u64::from(buffer))?;
            out.wide("offset", at)
        }
        Common::Texel {
            image,
            level,
            layer,
            x,
            y,
        } => {
            push_subresource(out, image, level, layer)?;
            out.number("x", u64::from(x))?;
            out.number("y", u64::from(y))
        }
        Common::Subresource {
            image,
            level,
            layer,
        } => push_subresource(out, image, level, layer),
        Common::Id { id } => out.number("id", u64::from(id)),
    }
}

fn push_subresource(
    out: &mut Values<'_>,
    image: u32,
    level: u32,
    layer: u32,
) -> Result<(), AllocError> {
    out.number("image", u64::from(image))?;
    out.number("level", u64::from(level))?;
    out.number("layer", u64::from(layer))
}

fn push_overlapping(
    out: &mut Values<'_>,
    names: (&str, &str),
    part: Part,
) -> Result<(), AllocError> {
    let (number, word) = match part {
        Part::Written(number) => (number, "written"),
        Part::Read(number) => (number, "read"),
        Part::Transition(number) => (number, "transition"),
        Part::Listed(number) => (number, "listed"),
    };
    out.number(names.0, number as u64)?;
    out.word(names.1, word)
}
