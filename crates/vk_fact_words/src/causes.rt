use crate::facts::push_byte;
use crate::quoting::push_quoted;
use std::alloc::{AllocError, Global};
use vk_hazards::{
    Cause, IdleBarrier, IdleCause, LateRelease, Loss, Signaler, Undefined, User, at_of,
};
use vk_model::{At, Entry};
use vk_words::{kind_name, point_words, push_at};

/// The lines on why a byte is undefined, what uses the object that ends, what would signal the value that
/// is waited for, which barrier doesn't serve, or which link of a transfer of ownership is missing.
pub fn cause_lines(
    alloc: Global,
    trace: &[Entry],
    cause: &Option<Cause<'_>>,
) -> Result<String, AllocError> {
    let mut lines = String::new(alloc);
    let words = cause_words(alloc, trace, cause)?;
    for (number, line) in words.iter().enumerate() {
        let indent = if number == 0 { "  " } else { "    " };
        lines.push_str(indent)?;
        lines.push_str(line.as_str())?;
        lines.push_str("\n")?;
    }
    Ok(lines)
}

/// The member with the same lines, where there are some.
pub fn cause_member(
    alloc: Global,
    trace: &[Entry],
    cause: &Option<Cause<'_>>,
) -> Result<String, AllocError> {
    let mut member = String::new(alloc);
    let words = cause_words(alloc, trace, cause)?;
    if words.is_empty() {
        return Ok(member);
    }
    member.push_str(",\"cause\":[")?;
    for (number, line) in words.into_iter().enumerate() {
        if number > 0 {
            member.push_str(",")?;
        }
        push_quoted(alloc, &mut member, line)?;
    }
    member.push_str("]")?;
    Ok(member)
}

fn cause_words(
    alloc: Global,
    trace: &[Entry],
    cause: &Option<Cause<'_>>,
) -> Result<Vec<String>, AllocError> {
    match cause {
        Some(Cause::Undefined(undefined)) => undefined_words(alloc, trace, undefined),
        Some(Cause::Used(user)) => user_words(alloc, trace, *user),
        Some(Cause::Signaled(signaler)) => signaler_words(alloc, trace, *signaler),
        Some(Cause::Idle(idle)) => idle_words(alloc, trace, *idle),
        Some(Cause::Late(late)) => late_words(alloc, trace, *late),
        None => Ok(Vec::new(alloc)),
    }
}

fn undefined_words(
    alloc: Global,
    trace: &[Entry],
    undefined: &Undefined<'_>,
) -> Result<Vec<String>, AllocError> {
    let mut words = Vec::new(alloc);
    let mut first = String::from_str(alloc, "undefined: ")?;
    push_byte(&mut first, undefined.byte)?;
    words.push(first)?;
    for copied in &undefined.copies {
        let mut line = String::from_str(alloc, "copied from ")?;
        push_byte(&mut line, copied.from)?;
        line.push_str(": ")?;
        let by = point_words(alloc, trace, at_of(&copied.by))?;
        line.push_str(by.as_str())?;
        words.push(line)?;
    }
    let last = match &undefined.loss {
        Some((loss, point)) => {
            let mut line = loss_words(alloc, *loss)?;
            let by = point_words(alloc, trace, at_of(point))?;
            line.push_str(by.as_str())?;
            line
        }
        None => String::from_str(alloc, "never written")?,
    };
    words.push(last)?;
    Ok(words)
}

/// What made a byte undefined, before the point at which it did.
fn loss_words(alloc: Global, loss: Loss) -> Result<String, AllocError> {
    match loss {
        Loss::Family { user, owner } => {
            let mut words = String::new(alloc);
            write!(
                words,
                "lost by a use of family {user}, as family {owner} owned it: "
            )?;
            Ok(words)
        }
        Loss::Transition => String::from_str(alloc, "lost by a transition from UNDEFINED: "),
        Loss::Invalidation => {
            String::from_str(alloc, "lost by an invalidation before it was flushed: ")
        }
    }
}

fn user_words(alloc: Global, trace: &[Entry], user: User<'_>) -> Result<Vec<String>, AllocError> {
    let mut words = Vec::new(alloc);
    match user {
        User::Started(point) => {
            let at = at_of(&point);
            words.push(called(alloc, at, ", which isn't known to be complete")?)?;
            words.push(point_words(alloc, trace, at)?)?;
        }
        User::Waiting(at) => {
            words.push(called(alloc, at, ", whose batch still waits")?)?;
            words.push(point_words(alloc, trace, at)?)?;
        }
        User::Resource(id) => {
            let mut line = String::new(alloc);
            write!(line, "in use: resource {id} lies in it")?;
            words.push(line)?;
        }
    }
    Ok(words)
}

fn signaler_words(
    alloc: Global,
    trace: &[Entry],
    signaler: Signaler,
) -> Result<Vec<String>, AllocError> {
    let mut words = Vec::new(alloc);
    match signaler {
        Signaler::Waiting { signal, wait } => {
            let mut line = String::from_str(alloc, "would be signaled by ")?;
            push_at(&mut line, signal)?;
            line.push_str(match wait {
                Some(_) => ", whose batch still waits",
                None => ", whose batch comes behind one that waits",
            })?;
            words.push(line)?;
            words.push(point_words(alloc, trace, signal)?)?;
            if let Some(wait) = wait {
                words.push(point_words(alloc, trace, wait)?)?;
            }
        }
        Signaler::Behind {
            signal,
            wait,
            is_deadlock,
        } => {
            let mut line = String::from_str(alloc, "would be signaled by ")?;
            push_at(&mut line, signal)?;
            line.push_str(", whose batch comes behind one that waits")?;
            words.push(line)?;
            words.push(point_words(alloc, trace, signal)?)?;
            words.push(point_words(alloc, trace, wait)?)?;
            if is_deadlock {
                words.push(String::from_str(
                    alloc,
                    "deadlock: what that one waits for is signaled behind it on the same queue",
                )?)?;
            }
        }
        Signaler::Later(at) => {
            let mut line = String::from_str(alloc, "would be signaled by ")?;
            push_at(&mut line, at)?;
            line.push_str(", which comes later")?;
            words.push(line)?;
            words.push(point_words(alloc, trace, at)?)?;
        }
    }
    Ok(words)
}

fn idle_words(
    alloc: Global,
    trace: &[Entry],
    idle: IdleBarrier<'_>,
) -> Result<Vec<String>, AllocError> {
    let mut words = Vec::new(alloc);
    let at = at_of(&idle.by);
    let mut line = String::from_str(alloc, "command ")?;
    push_at(&mut line, at)?;
    line.push_str(" lies between: ")?;
    match idle.cause {
        IdleCause::OtherBytes(index) => {
            write!(line, "its element {index} isn't on the byte")?;
        }
        IdleCause::Unchained => line.push_str(
            "one element makes the write available, another one visible; elements of one barrier don't chain",
        )?,
    }
    words.push(line)?;
    words.push(point_words(alloc, trace, at)?)?;
    Ok(words)
}

fn late_words(
    alloc: Global,
    trace: &[Entry],
    late: LateRelease,
) -> Result<Vec<String>, AllocError> {
    let mut words = Vec::new(alloc);
    let mut line = String::from_str(alloc, "missing: ")?;
    let by = match late {
        LateRelease::Signal(None) => {
            line.push_str("a signal after the release, on its queue")?;
            None
        }
        LateRelease::Signal(Some(signal)) => {
            line.push_str("a signal that comes after the release; the stages of ")?;
            push_called(&mut line, signal)?;
            line.push_str(" leave it out")?;
            Some(signal)
        }
        LateRelease::Wait(signal) => {
            line.push_str("a wait for ")?;
            push_called(&mut line, signal)?;
            line.push_str(" on the queue of the acquire")?;
            Some(signal)
        }
        LateRelease::Acquire(wait) => {
            line.push_str("an order between ")?;
            push_called(&mut line, wait)?;
            line.push_str(", which the release comes before, and the acquire")?;
            Some(wait)
        }
    };
    words.push(line)?;
    if let Some(at) = by {
        words.push(point_words(alloc, trace, at)?)?;
    }
    Ok(words)
}

/// Adds what a point is called.
fn push_called(out: &mut String, at: At) -> Result<(), AllocError> {
    out.push_str(kind_name(at))?;
    push_at(out, at)
}

fn called(alloc: Global, at: At, state: &str) -> Result<String, AllocError> {
    let mut line = String::from_str(alloc, "in use: command ")?;
    push_at(&mut line, at)?;
    line.push_str(state)?;
    Ok(line)
}
