use crate::before::{Split, points_until, split_of};
use crate::busy::{User, user_of};
use crate::facts::Fact;
use crate::idle::{IdleBarrier, idle_barrier};
use crate::releases::LateRelease;
use crate::signalers::{Signaler, signaler_of};
use crate::undefined::{Undefined, undefined_read};
use std::alloc::{AllocError, Global};
use vk_model::{Action, At, Entry, Point, Rule};

/// What is reported of a refused point beside its facts.
#[derive(Drop)]
pub enum Cause<'a> {
    /// READ_UNDEFINED: the byte, and what became of it.
    Undefined(Undefined<'a>),
    /// IN_USE: what uses the object that ends.
    Used(User<'a>),
    /// WAIT_NEVER: what would signal the value.
    Signaled(Signaler),
    /// A hazard: a barrier between the two accesses that doesn't serve.
    Idle(IdleBarrier<'a>),
    /// OWNER_PAIR: which link between a release and its acquire is missing.
    Late(LateRelease),
}

/// What is reported of the point that a trace is refused at, by this rule, beside this fact. None is
/// reported of other rules, nor where finding it would take too long. The only error is want of memory.
pub fn cause_of<'a>(
    alloc: Global,
    entries: &'a [Entry],
    at: At,
    rule: Rule,
    fact: &Option<Fact<'a>>,
) -> Result<Option<Cause<'a>>, AllocError> {
    let Some(points) = points_until(alloc, entries, at)? else {
        return Ok(None);
    };
    let Some(Split { point, older }) = split_of(points.as_slice()) else {
        return Ok(None);
    };
    let Action::Host(entry) = point.action else {
        return Ok(idle_between(older, fact));
    };
    match (rule, entry) {
        (
            Rule::ReadUndefined,
            Entry::Read {
                buffer,
                offset,
                size,
            },
        ) => match undefined_read(alloc, older, *buffer, *offset, *size)? {
            Some(undefined) => Ok(Some(Cause::Undefined(undefined))),
            None => Ok(None),
        },
        (Rule::WaitNever, Entry::Wait { waits }) => {
            match signaler_of(alloc, entries, older, point.entry, waits.as_slice())? {
                Some(signaler) => Ok(Some(Cause::Signaled(signaler))),
                None => Ok(None),
            }
        }
        (Rule::InUse, _) => match user_of(alloc, points.as_slice(), older, entry)? {
            Some(user) => Ok(Some(Cause::Used(user))),
            None => Ok(None),
        },
        _ => Ok(None),
    }
}

/// A barrier between the accesses of a hazard that doesn't serve.
fn idle_between<'a>(older: &[Point<'a>], fact: &Option<Fact<'a>>) -> Option<Cause<'a>> {
    match fact {
        Some(Fact::Hazard(hazard)) => {
            let idle = idle_barrier(older, hazard)?;
            Some(Cause::Idle(idle))
        }
        _ => None,
    }
}
