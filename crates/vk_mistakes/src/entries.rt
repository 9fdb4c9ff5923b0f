use crate::commands::command;
use crate::forms::{Plain, expected_of, in_plain};
use crate::mistakes::{Misfit, Search, inside, missing, shaped, unlike};
use crate::rows::{Row, ended, in_plains, in_rows};
use crate::shapes::{BATCH, Shape, entry_shape, place_shape};
use serde_json::Value;
use std::alloc::Global;

/// What comes after the word of an entry.
#[derive(Clone, Copy)]
enum Member {
    /// A number or a string.
    Plain(Plain),
    /// Where a resource lies.
    Place,
    /// Semaphores and values.
    Waits,
    /// Batches.
    Batches,
    /// Ids.
    Ids,
}

/// What is expected where an entry has no word, or another one.
const ENTRY_WORDS: &str = "the name of an entry, such as \"buffer\", \"submit\" or \"read\"";

/// What is expected where a place has no word, or another one.
const PLACE_WORDS: &str = "\"dedicated\", \"memory\", \"pool\" or \"pool_upper\"";

/// The members after the word of an entry.
fn members_of(word: &str) -> Option<&'static [Member]> {
    match word {
        "buffer" => Some(&[
            Member::Plain(Plain::Small),
            Member::Plain(Plain::Large),
            Member::Plain(Plain::Small),
            Member::Plain(Plain::Sharing),
            Member::Place,
        ]),
        "image" => Some(&[
            Member::Plain(Plain::Small),
            Member::Plain(Plain::Format),
            Member::Plain(Plain::Small),
            Member::Plain(Plain::Small),
            Member::Plain(Plain::Small),
            Member::Plain(Plain::Small),
            Member::Plain(Plain::Tiling),
            Member::Plain(Plain::Small),
            Member::Plain(Plain::Sharing),
            Member::Place,
        ]),
        "pool" => Some(&[
            Member::Plain(Plain::Small),
            Member::Plain(Plain::Algorithm),
            Member::Plain(Plain::Small),
            Member::Plain(Plain::Large),
            Member::Plain(Plain::Small),
        ]),
        "memory" => Some(&[
            Member::Plain(Plain::Small),
            Member::Plain(Plain::Small),
            Member::Plain(Plain::Large),
        ]),
        "wait" => Some(&[Member::Waits]),
        "submit" => Some(&[Member::Plain(Plain::Small), Member::Batches]),
        _ => plain_members_of(word),
    }
}

/// The same of an entry that has numbers and strings alone.
fn plain_members_of(word: &str) -> Option<&'static [Member]> {
    match word {
        "free" | "destroy" | "drop_pool" | "map" | "unmap" | "event" => {
            Some(&[Member::Plain(Plain::Small)])
        }
        "semaphore" | "signal" => Some(&[Member::Plain(Plain::Small), Member::Plain(Plain::Large)]),
        "write" => Some(&[
            Member::Plain(Plain::Small),
            Member::Plain(Plain::Large),
            Member::Plain(Plain::Bytes),
        ]),
        "read" => Some(&[
            Member::Plain(Plain::Small),
            Member::Plain(Plain::Large),
            Member::Plain(Plain::Large),
        ]),
        "flush" | "invalidate" => Some(&[
            Member::Plain(Plain::Small),
            Member::Plain(Plain::Large),
            Member::Plain(Plain::Length),
        ]),
        "defrag" => Some(&[
            Member::Plain(Plain::Small),
            Member::Plain(Plain::Small),
            Member::Plain(Plain::Large),
            Member::Plain(Plain::Small),
        ]),
        "pass" | "end_defrag" => Some(&[Member::Plain(Plain::Small)]),
        "end_pass" => Some(&[Member::Plain(Plain::Small), Member::Ids, Member::Ids]),
        _ => None,
    }
}

/// What keeps a value from being a trace.
pub fn trace(alloc: Global, value: &Value) -> Search {
    let Some(array) = value.as_array() else {
        return unlike(alloc, "an array of entries", value);
    };
    for (number, item) in array.as_slice().iter().enumerate() {
        let found = entry(alloc, item)?;
        if found.is_some() {
            return inside(Ok(found), number);
        }
    }
    Ok(None)
}

/// What keeps a value from being an entry.
fn entry(alloc: Global, value: &Value) -> Search {
    let Some(array) = value.as_array() else {
        return unlike(alloc, "an array", value);
    };
    let values = array.as_slice();
    let Some(first) = values.first() else {
        return missing(alloc, ENTRY_WORDS);
    };
    let known = match first.as_str() {
        Some(word) => known_of(word),
        None => None,
    };
    let Some((members, shape)) = known else {
        return inside(unlike(alloc, ENTRY_WORDS, first), 0);
    };
    for (index, form) in members.iter().enumerate() {
        let found = member_at(alloc, values, index.saturating_add(1), *form);
        let found = shaped(found, shape, index)?;
        if found.is_some() {
            return Ok(found);
        }
    }
    ended(alloc, values, members.len().saturating_add(1), shape)
}

/// The members after a word, and their names.
fn known_of(word: &str) -> Option<(&'static [Member], Shape)> {
    match (members_of(word), entry_shape(word)) {
        (Some(members), Some(shape)) => Some((members, shape)),
        _ => None,
    }
}

fn member_at(alloc: Global, values: &[Value], number: usize, form: Member) -> Search {
    let Some(value) = values.get(number) else {
        return missing(alloc, expected_member(form));
    };
    let found = match form {
        Member::Plain(form) => in_plain(alloc, value, form),
        Member::Place => place(alloc, value),
        Member::Waits => in_rows(alloc, value, Row::SemaphoreValue),
        Member::Batches => batches(alloc, value),
        Member::Ids => ids(alloc, value),
    };
    inside(found, number)
}

fn expected_member(form: Member) -> &'static str {
    match form {
        Member::Plain(form) => expected_of(form),
        Member::Place | Member::Waits | Member::Batches | Member::Ids => "an array",
    }
}

/// What keeps a value from being an array of ids.
fn ids(alloc: Global, value: &Value) -> Search {
    let Some(array) = value.as_array() else {
        return unlike(alloc, "an array", value);
    };
    for (number, item) in array.as_slice().iter().enumerate() {
        let found = in_plain(alloc, item, Plain::Small)?;
        if found.is_some() {
            return inside(Ok(found), number);
        }
    }
    Ok(None)
}

/// What keeps a value from being a place.
fn place(alloc: Global, value: &Value) -> Search {
    let Some(array) = value.as_array() else {
        return unlike(alloc, "an array", value);
    };
    let Some((first, rest)) = array.as_slice().split_first() else {
        return missing(alloc, PLACE_WORDS);
    };
    let shape = match first.as_str() {
        Some(word) => place_shape(word),
        None => None,
    };
    let Some(shape) = shape else {
        return inside(unlike(alloc, PLACE_WORDS, first), 0);
    };
    let members = place_members(shape);
    let found = in_plains(alloc, rest, members, shape)?;
    if found.is_some() {
        return Ok(after_word(found));
    }
    let found = ended(alloc, rest, members.len(), shape)?;
    Ok(after_word(found))
}

/// The members after the word of a place: a number, and behind it an offset where there are two.
fn place_members(shape: Shape) -> &'static [Plain] {
    match shape.names.len() {
        2 => &[Plain::Small, Plain::Large],
        _ => &[Plain::Small],
    }
}

/// What was found in the members after a word.
fn after_word(found: Option<Misfit>) -> Option<Misfit> {
    let Some(mut misfit) = found else {
        return None;
    };
    if let Some(number) = misfit.outward.last_mut() {
        *number = number.saturating_add(1);
    }
    Some(misfit)
}

/// What keeps a value from being batches.
fn batches(alloc: Global, value: &Value) -> Search {
    let Some(array) = value.as_array() else {
        return unlike(alloc, "an array of batches", value);
    };
    for (number, item) in array.as_slice().iter().enumerate() {
        let found = batch(alloc, item)?;
        if found.is_some() {
            return inside(Ok(found), number);
        }
    }
    Ok(None)
}

/// What keeps a value from being a batch.
fn batch(alloc: Global, value: &Value) -> Search {
    let Some(array) = value.as_array() else {
        return unlike(alloc, "an array of waits, commands and signals", value);
    };
    let values = array.as_slice();
    for number in 0..3usize {
        let Some(value) = values.get(number) else {
            return shaped(missing(alloc, "an array"), BATCH, number);
        };
        let found = match number {
            1 => commands(alloc, value)?,
            _ => in_rows(alloc, value, Row::Submit)?,
        };
        if found.is_some() {
            return shaped(inside(Ok(found), number), BATCH, number);
        }
    }
    ended(alloc, values, 3, BATCH)
}

/// What keeps a value from being the commands of a batch.
fn commands(alloc: Global, value: &Value) -> Search {
    let Some(array) = value.as_array() else {
        return unlike(alloc, "an array of commands", value);
    };
    for (number, item) in array.as_slice().iter().enumerate() {
        let found = command(alloc, item)?;
        if found.is_some() {
            return inside(Ok(found), number);
        }
    }
    Ok(None)
}
