ghost use Rattle.std.specs.Prelude.{◌≡◌, ◌≤◌, ◌<◌, ◌++◌, length, IfOk, IfSome};
ghost use Rattle.vk_words.specs.Points.{at_text};
ghost use Rattle.vk_calls.specs.Inner.Adding.{IsNamedIn};

use std::alloc::{AllocError, Global};
use vk_model::At;
use vk_words::push_at;

/// A text up to a point that it names, and behind that name.
#[derive(Clone, Copy)]
pub struct Named<'a> {
    /// What comes before the name.
    pub front: &'a [u8],
    /// The point.
    pub at: At,
    /// What comes behind the name.
    pub after: &'a [u8],
}

/// The first point that a text names: as `2.0.1`, `2.0.w0` or `2.0.s0`, or as a number behind `entry `.
pub fn first_named(alloc: Global, text: &[u8]) -> Result<Option<Named<'_>>, AllocError>
    ensures { IfOk result (λ found. IfSome found (λ n. IsNamedIn text.now n)) }
{
    for start in 0..text.len() {
        if let Some(at) = point_at(text, start) {
            if let Some(named) = named_at(alloc, text, start, at)? {
                return Ok(Some(named));
            }
        }
    }
    Ok(None)
}

/// A text, where it has the name of this point from this byte on.
fn named_at(
    alloc: Global,
    text: &[u8],
    start: usize,
    at: At,
) -> Result<Option<Named<'_>>, AllocError>
    requires { start ≤ length text.now }
    ensures { IfOk result (λ found. IfSome found (λ n. IsNamedIn text.now n)) }
{
    let (front, rest) = text.split_at(start);
    match behind_name(alloc, rest, at)? {
        Some(after) if after.len() < text.len() => Ok(Some(Named { front, at, after })),
        _ => Ok(None),
    }
}

/// What comes behind the name of this point, where a text begins with it.
fn behind_name(alloc: Global, text: &[u8], at: At) -> Result<Option<&[u8]>, AllocError>
    ensures { IfOk result (λ found. IfSome found (λ after. text.now ≡ at_text at ++ after.now)) }
{
    let mut name = String::new(alloc);
    push_at(&mut name, at)?;
    match text.strip_prefix(name.as_bytes()) {
        Some(after) => Ok(Some(after)),
        None => Ok(None),
    }
}

/// The point that is named from this byte of a text on, if it looks so.
fn point_at(text: &[u8], start: usize) -> Option<At> {
    let front = text.get(..start)?;
    if front.last().is_some_and(|before| is_of_word(*before)) {
        return None;
    }
    let (entry, rest) = number_of(text.get(start..)?)?;
    match item_of(rest, entry) {
        Some(at) => Some(at),
        None if front.ends_with(b"entry ") => Some(At::Entry(entry)),
        None => None,
    }
}

/// Whether a byte before a number makes it a part of another word.
fn is_of_word(byte: u8) -> bool {
    byte.is_ascii_alphanumeric() || matches!(byte, b'.' | b'-' | b'_')
}

/// The wait, the command or the signal of an entry that a text goes on with, as `.0.1`.
fn item_of(text: &[u8], entry: usize) -> Option<At> {
    let (batch, rest) = number_of(text.strip_prefix(b".".as_slice())?)?;
    let rest = rest.strip_prefix(b".".as_slice())?;
    match rest.first()? {
        b'w' => {
            let (place, _) = number_of(rest.get(1..)?)?;
            Some(At::Wait(entry, batch, place))
        }
        b's' => {
            let (place, _) = number_of(rest.get(1..)?)?;
            Some(At::Signal(entry, batch, place))
        }
        _ => {
            let (place, _) = number_of(rest)?;
            Some(At::Command(entry, batch, place))
        }
    }
}

/// The number that a text begins with, and what comes behind it.
fn number_of(text: &[u8]) -> Option<(usize, &[u8])> {
    let mut number: usize = 0;
    let mut count: usize = 0;
    for byte in text {
        if !byte.is_ascii_digit() {
            break;
        }
        let digit = byte.saturating_sub(b'0');
        number = number.saturating_mul(10).saturating_add(digit as usize);
        count = count.saturating_add(1);
    }
    if count == 0 {
        return None;
    }
    Some((number, text.get(count..)?))
}
