use crate::forms::{Plain, expected_of, in_plain};
use crate::mistakes::{Search, inside, missing, shaped, unlike};
use crate::rows::{Row, ended, in_row, in_rows};
use crate::shapes::{Shape, command_shape};
use serde_json::Value;
use std::alloc::Global;

/// What comes after the word of a command.
#[derive(Clone, Copy)]
enum Member {
    /// A number or a string.
    Plain(Plain),
    /// An array of a fixed number of members.
    Row(Row),
    /// An array of such arrays.
    Rows(Row),
}

/// What is expected where a command has no word, or another one.
const COMMAND_WORDS: &str =
    "\"fill\", \"update\", \"copy\", \"clear\", \"copy_in\", \"copy_out\", \"copy_image\", \"barrier\", \"set\" or \"await\"";

/// The members after the word of a command.
fn members_of(word: &str) -> Option<&'static [Member]> {
    match word {
        "fill" => Some(&[
            Member::Plain(Plain::Small),
            Member::Plain(Plain::Large),
            Member::Plain(Plain::Length),
            Member::Plain(Plain::Small),
        ]),
        "update" => Some(&[
            Member::Plain(Plain::Small),
            Member::Plain(Plain::Large),
            Member::Plain(Plain::Bytes),
        ]),
        "copy" => Some(&[
            Member::Plain(Plain::Small),
            Member::Plain(Plain::Small),
            Member::Rows(Row::Copy),
        ]),
        "barrier" => Some(&[
            Member::Rows(Row::Dependency),
            Member::Rows(Row::BufferElement),
            Member::Rows(Row::ImageElement),
        ]),
        "set" | "await" => Some(&[Member::Plain(Plain::Small), Member::Rows(Row::Dependency)]),
        _ => image_members_of(word),
    }
}

/// The same of a command that names images.
fn image_members_of(word: &str) -> Option<&'static [Member]> {
    match word {
        "clear" => Some(&[
            Member::Plain(Plain::Small),
            Member::Plain(Plain::Small),
            Member::Row(Row::Color),
            Member::Rows(Row::Range),
        ]),
        "copy_in" | "copy_out" => Some(&[
            Member::Plain(Plain::Small),
            Member::Plain(Plain::Small),
            Member::Plain(Plain::Small),
            Member::Rows(Row::BufferImageCopy),
        ]),
        "copy_image" => Some(&[
            Member::Plain(Plain::Small),
            Member::Plain(Plain::Small),
            Member::Plain(Plain::Small),
            Member::Plain(Plain::Small),
            Member::Rows(Row::ImageCopy),
        ]),
        _ => None,
    }
}

/// What keeps a value from being a command.
pub fn command(alloc: Global, value: &Value) -> Search {
    let Some(array) = value.as_array() else {
        return unlike(alloc, "an array", value);
    };
    let values = array.as_slice();
    let Some(first) = values.first() else {
        return missing(alloc, COMMAND_WORDS);
    };
    let known = match first.as_str() {
        Some(word) => known_of(word),
        None => None,
    };
    let Some((members, shape)) = known else {
        return inside(unlike(alloc, COMMAND_WORDS, first), 0);
    };
    for (index, form) in members.iter().enumerate() {
        let found = member_at(alloc, values, index.saturating_add(1), *form);
        let found = shaped(found, shape, index)?;
        if found.is_some() {
            return Ok(found);
        }
    }
    ended(alloc, values, members.len().saturating_add(1), shape)
}

/// The members after a word, and their names.
fn known_of(word: &str) -> Option<(&'static [Member], Shape)> {
    match (members_of(word), command_shape(word)) {
        (Some(members), Some(shape)) => Some((members, shape)),
        _ => None,
    }
}

fn member_at(alloc: Global, values: &[Value], number: usize, form: Member) -> Search {
    let Some(value) = values.get(number) else {
        return missing(alloc, expected_member(form));
    };
    let found = match form {
        Member::Plain(form) => in_plain(alloc, value, form),
        Member::Row(form) => in_row(alloc, value, form),
        Member::Rows(form) => in_rows(alloc, value, form),
    };
    inside(found, number)
}

fn expected_member(form: Member) -> &'static str {
    match form {
        Member::Plain(form) => expected_of(form),
        Member::Row(_) | Member::Rows(_) => "an array",
    }
}
