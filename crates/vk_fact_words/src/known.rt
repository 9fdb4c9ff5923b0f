use crate::facts::object_name;
use crate::values::Values;
use std::alloc::AllocError;
use vk_hazards::{
    Cause, CounterFact, DeadId, Fact, HazardFact, IdleCause, LateRelease, Life, Links, Loss,
    Missing, Placed, Signaler, Undefined, User,
};
use vk_model::Point;

/// Adds what is so of a point by those before it.
pub fn push_fact_values(out: &mut Values<'_>, fact: &Fact<'_>) -> Result<(), AllocError> {
    match fact {
        Fact::Hazard(hazard) => push_hazard(out, hazard),
        Fact::Made(life) => push_life(out, life),
        Fact::Dead(dead) => push_dead(out, dead),
        Fact::Stray(stray) => {
            push_life(out, &stray.life)?;
            out.number("pool", u64::from(stray.pool))?;
            out.number("defragmentation", u64::from(stray.defrag))
        }
        Fact::Signaled(counter) | Fact::Waited(counter) => push_counter(out, counter),
    }
}

fn push_hazard(out: &mut Values<'_>, hazard: &HazardFact<'_>) -> Result<(), AllocError> {
    out.point("earlier", hazard.earlier.row.point)?;
    out.point("later", hazard.later.row.point)?;
    out.byte("byte", hazard.byte)?;
    out.truth("ordered", hazard.is_ordered)
}

fn push_life(out: &mut Values<'_>, life: &Life<'_>) -> Result<(), AllocError> {
    out.number("id", u64::from(life.id))?;
    push_some(out, "made", life.made)?;
    push_some(out, "ended", life.ended)
}

fn push_dead(out: &mut Values<'_>, dead: &DeadId<'_>) -> Result<(), AllocError> {
    push_life(out, &dead.life)?;
    out.word("wanted", object_name(dead.wanted))?;
    match dead.life.made {
        Some(_) => Ok(()),
        None => push_some(out, "made_after_the_submit", dead.made_ever),
    }
}

fn push_counter(out: &mut Values<'_>, counter: &CounterFact<'_>) -> Result<(), AllocError> {
    out.number("semaphore", u64::from(counter.asked.semaphore))?;
    out.number("value", counter.asked.value)?;
    out.number("counter", counter.counter)?;
    push_some(out, "last_signal", counter.last)
}

/// Adds where a point is, if there is one.
pub fn push_some(
    out: &mut Values<'_>,
    name: &str,
    point: Option<Point<'_>>,
) -> Result<(), AllocError> {
    match point {
        Some(point) => out.point(name, point),
        None => Ok(()),
    }
}

/// Adds which link of a hazard is missing, and the points that the others are by.
pub fn push_link_values(out: &mut Values<'_>, links: &Links<'_>) -> Result<(), AllocError> {
    out.word(
        "missing",
        match links.missing {
            Missing::Flush => "flush",
            Missing::Submit => "submit",
            Missing::Available => "availability",
            Missing::Order => "order",
            Missing::Visible => "visibility",
            Missing::Wait => "wait",
            Missing::Invalidation => "invalidation",
        },
    )?;
    push_placed(out, "flushed_by", &links.flush)?;
    push_placed(out, "made_available_by", &links.available)?;
    push_placed(out, "made_visible_by", &links.visible)?;
    push_placed(out, "awaited_by", &links.awaited)
}

fn push_placed(
    out: &mut Values<'_>,
    name: &str,
    node: &Option<Placed<'_>>,
) -> Result<(), AllocError> {
    match node {
        Some(placed) => out.point(name, placed.row.point),
        None => Ok(()),
    }
}

/// Adds why a byte is undefined, what uses an object, what would signal a value, which barrier doesn't serve, or
/// which link of a transfer of ownership is missing.
pub fn push_cause_values(out: &mut Values<'_>, cause: &Cause<'_>) -> Result<(), AllocError> {
    match cause {
        Cause::Undefined(undefined) => push_undefined(out, undefined),
        Cause::Used(User::Started(point)) => out.point("used_by", *point),
        Cause::Used(User::Waiting(at)) => out.place("used_by", *at),
        Cause::Used(User::Resource(id)) => out.number("used_by_resource", u64::from(*id)),
        Cause::Signaled(Signaler::Waiting { signal, wait }) => {
            out.place("signal", *signal)?;
            match wait {
                Some(wait) => out.place("unmet_wait", *wait),
                None => Ok(()),
            }
        }
        Cause::Signaled(
            Signaler::Behind {
                signal,
                wait,
                is_deadlock,
            },
        ) => {
            out.place("signal", *signal)?;
            out.place("unmet_wait", *wait)?;
            out.truth("deadlock", *is_deadlock)
        }
        Cause::Signaled(Signaler::Later(at)) => out.place("later_signal", *at),
        Cause::Idle(idle) => {
            out.point("idle_barrier", idle.by)?;
            match idle.cause {
                IdleCause::OtherBytes(index) => {
                    out.word("idle_as", "other_bytes")?;
                    out.number("idle_element", index as u64)
                }
                IdleCause::Unchained => out.word("idle_as", "unchained"),
            }
        }
        Cause::Late(late) => push_late(out, *late),
    }
}

fn push_late(out: &mut Values<'_>, late: LateRelease) -> Result<(), AllocError> {
    match late {
        LateRelease::Signal(None) => out.word("missing", "signal"),
        LateRelease::Signal(Some(signal)) => {
            out.word("missing", "signal")?;
            out.place("signal", signal)
        }
        LateRelease::Wait(signal) => {
            out.word("missing", "wait")?;
            out.place("signal", signal)
        }
        LateRelease::Acquire(wait) => {
            out.word("missing", "order")?;
            out.place("awaited_by", wait)
        }
    }
}

fn push_undefined(out: &mut Values<'_>, undefined: &Undefined<'_>) -> Result<(), AllocError> {
    out.byte("byte", undefined.byte)?;
    match &undefined.loss {
        Some((loss, point)) => {
            out.word(
                "lost_by",
                match loss {
                    Loss::Family { .. } => "family",
                    Loss::Transition => "transition",
                    Loss::Invalidation => "invalidation",
                },
            )?;
            out.point("lost_at", *point)
        }
        None => out.word("lost_by", "nothing"),
    }
}
