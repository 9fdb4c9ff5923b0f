ghost use Rattle.std.specs.Prelude.{◌≤◌};

use crate::repairs::EditWords;
use std::alloc::{AllocError, Global};
use vk_mistakes::{end_of, start_of};
use vk_model::At;

/// The text of a trace after one edit; what the edit doesn't touch is kept as it is written. None where
/// the text has no such place.
pub(crate) fn patched(
    alloc: Global,
    text: &[u8],
    edit: &EditWords,
) -> Result<Option<Vec<u8>>, AllocError> {
    let Some(at) = edit.at else {
        return Ok(None);
    };
    let value = match &edit.value {
        Some(value) => value.as_bytes(),
        None => b"",
    };
    match at {
        At::Entry(e) => with_edit(alloc, text, edit.operation, &[0], e, value),
        At::Wait(e, b, k) => with_edit(alloc, text, edit.operation, &[0, e, 2, b, 0], k, value),
        At::Command(e, b, k) => with_edit(alloc, text, edit.operation, &[0, e, 2, b, 1], k, value),
        At::Signal(e, b, k) => with_edit(alloc, text, edit.operation, &[0, e, 2, b, 2], k, value),
    }
}

/// The text after an edit of the list to which these numbers lead, at one of its members.
fn with_edit(
    alloc: Global,
    text: &[u8],
    operation: &str,
    list: &[usize],
    number: usize,
    value: &[u8],
) -> Result<Option<Vec<u8>>, AllocError> {
    let Some(start) = member_start(alloc, text, list, number)? else {
        return if operation == "add" {
            with_last(alloc, text, list, number, value)
        } else {
            Ok(None)
        };
    };
    let end = end_of(text, start);
    match operation {
        "add" => with_before(alloc, text, start, value),
        "replace" => with_between(alloc, text, start, end, value),
        _ => without(alloc, text, start, end),
    }
}

/// The index at which a member of a list begins.
fn member_start(
    alloc: Global,
    text: &[u8],
    list: &[usize],
    number: usize,
) -> Result<Option<usize>, AllocError> {
    let mut path = Vec::new(alloc);
    path.extend_from_slice(list)?;
    path.push(number)?;
    Ok(start_of(text, path.as_slice()))
}

/// A value before the member that begins at an index, with the space between them that is before the
/// member.
fn with_before(
    alloc: Global,
    text: &[u8],
    start: usize,
    value: &[u8],
) -> Result<Option<Vec<u8>>, AllocError> {
    let mut put = Vec::new(alloc);
    put.extend_from_slice(value)?;
    put.push(b',')?;
    put.extend_from_slice(space_before(text, start))?;
    with_between(alloc, text, start, start, put.as_slice())
}

/// A value at the end of a list, with the space before it that the member before it has.
fn with_last(
    alloc: Global,
    text: &[u8],
    list: &[usize],
    number: usize,
    value: &[u8],
) -> Result<Option<Vec<u8>>, AllocError> {
    let Some(open) = start_of(text, list) else {
        return Ok(None);
    };
    let Some(before) = number.checked_sub(1) else {
        let inside = open.saturating_add(1);
        return with_between(alloc, text, inside, inside, value);
    };
    let Some(start) = member_start(alloc, text, list, before)? else {
        return Ok(None);
    };
    let mut put = Vec::new(alloc);
    put.push(b',')?;
    put.extend_from_slice(space_before(text, start))?;
    put.extend_from_slice(value)?;
    let end = end_of(text, start);
    with_between(alloc, text, end, end, put.as_slice())
}

/// The text without a member, and without the comma and the space up to the next one, or from the one
/// before it where it is the last.
fn without(
    alloc: Global,
    text: &[u8],
    start: usize,
    end: usize,
) -> Result<Option<Vec<u8>>, AllocError> {
    let behind = first_from(text, end);
    if text.get(behind) == Some(&b',') {
        let next = first_from(text, behind.saturating_add(1));
        return with_between(alloc, text, start, next, b"");
    }
    match last_before(text, start) {
        Some(comma) if text.get(comma) == Some(&b',') => {
            with_between(alloc, text, comma, end, b"")
        }
        _ => with_between(alloc, text, start, end, b""),
    }
}

/// The text with other bytes in place of those from one index to before another.
fn with_between(
    alloc: Global,
    text: &[u8],
    from: usize,
    to: usize,
    put: &[u8],
) -> Result<Option<Vec<u8>>, AllocError> {
    if from > to || to > text.len() {
        return Ok(None);
    }
    let mut changed = Vec::new(alloc);
    changed.extend_from_slice(&text[..from])?;
    changed.extend_from_slice(put)?;
    changed.extend_from_slice(&text[to..])?;
    Ok(Some(changed))
}

/// The space that is written just before an index.
fn space_before(text: &[u8], start: usize) -> &[u8] {
    let from = match last_before(text, start) {
        Some(index) => index.saturating_add(1),
        None => 0,
    };
    if from <= start && start <= text.len() {
        &text[from..start]
    } else {
        b""
    }
}

/// The index of the first byte from an index on that is no space; that of the end where there is none.
fn first_from(text: &[u8], from: usize) -> usize {
    for (index, byte) in text.iter().enumerate() {
        if index >= from && !is_space(*byte) {
            return index;
        }
    }
    text.len()
}

/// The index of the last byte before an index that is no space.
fn last_before(text: &[u8], to: usize) -> Option<usize> {
    let mut last = None;
    for (index, byte) in text.iter().enumerate().take(to) {
        if !is_space(*byte) {
            last = Some(index);
        }
    }
    last
}

/// Whether a byte is space between the tokens of JSON (RFC 8259, section 2).
fn is_space(byte: u8) -> bool {
    matches!(byte, b' ' | b'\n' | b'\r' | b'\t')
}
