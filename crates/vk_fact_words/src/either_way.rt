use crate::facts::{push_after, push_byte};
use crate::quoting::push_quoted;
use std::alloc::{AllocError, Global};
use vk_hazards::{Fact, Hazard, HazardFact};
use vk_model::{Action, Cmd, Entry, Point};
use vk_order::Byte;
use vk_words::push_digits;

/// The line with what the common byte of a hazard may be, one way round and the other, where the trace
/// itself says what is written; nothing of other facts.
pub fn either_way_line(alloc: Global, fact: &Option<Fact<'_>>) -> Result<String, AllocError> {
    let words = either_way_words(alloc, fact)?;
    if words.is_empty() {
        return Ok(words);
    }
    let mut line = String::from_str(alloc, "  either way: ")?;
    line.push_str(words.as_str())?;
    line.push_str("\n")?;
    Ok(line)
}

/// The member with the same.
pub fn either_way_member(alloc: Global, fact: &Option<Fact<'_>>) -> Result<String, AllocError> {
    let words = either_way_words(alloc, fact)?;
    if words.is_empty() {
        return Ok(words);
    }
    let mut member = String::from_str(alloc, ",\"either_way\":")?;
    push_quoted(alloc, &mut member, words)?;
    Ok(member)
}

/// What the common byte may be; nothing where that isn't known.
fn either_way_words(alloc: Global, fact: &Option<Fact<'_>>) -> Result<String, AllocError> {
    let mut words = String::new(alloc);
    if let Some(Fact::Hazard(hazard)) = fact {
        let earlier = value_of(&hazard.earlier.row.point, hazard.byte);
        let later = value_of(&hazard.later.row.point, hazard.byte);
        push_either_way(&mut words, hazard, earlier, later)?;
    }
    Ok(words)
}

/// Adds what the common byte of a hazard may be, by the values that the two accesses write.
fn push_either_way(
    out: &mut String,
    hazard: &HazardFact<'_>,
    earlier: Option<u8>,
    later: Option<u8>,
) -> Result<(), AllocError> {
    match (hazard.hazard, earlier, later) {
        (Hazard::Raw, Some(value), _) => {
            push_byte(out, hazard.byte)?;
            push_written(out, " is read as ", value, &hazard.earlier.row.point)?;
            out.push_str(", or as it was before")
        }
        (Hazard::War, _, Some(value)) => {
            push_byte(out, hazard.byte)?;
            out.push_str(" is read as it was before")?;
            push_written(out, ", or as ", value, &hazard.later.row.point)
        }
        (Hazard::Waw, Some(first), Some(second)) => {
            push_byte(out, hazard.byte)?;
            push_written(out, " ends as ", first, &hazard.earlier.row.point)?;
            push_written(out, ", or as ", second, &hazard.later.row.point)
        }
        _ => Ok(()),
    }
}

/// Adds a value, and which point writes it.
fn push_written(
    out: &mut String,
    before: &str,
    value: u8,
    point: &Point<'_>,
) -> Result<(), AllocError> {
    out.push_str(before)?;
    push_digits(out, &[value])?;
    push_after(out, " of ", point)
}

/// The value that a point writes to a byte, where the trace itself says it: by a fill, an update or a
/// write of the host.
fn value_of(point: &Point<'_>, byte: Byte) -> Option<u8> {
    let Byte::Buffer { at, .. } = byte else {
        return None;
    };
    match point.action {
        Action::Host(Entry::Write { offset, bytes, .. })
        | Action::Run(Cmd::Update { offset, bytes, .. }) => given(bytes.as_slice(), *offset, at),
        Action::Run(Cmd::Fill { offset, word, .. }) => {
            let place = at.checked_sub(*offset)?;
            Some(word.to_le_bytes()[(place % 4) as usize])
        }
        _ => None,
    }
}

/// The byte at a place, of bytes that begin at an offset.
fn given(bytes: &[u8], offset: u64, at: u64) -> Option<u8> {
    let place = at.checked_sub(offset)?;
    if place < bytes.len() as u64 {
        bytes.get(place as usize).copied()
    } else {
        None
    }
}
