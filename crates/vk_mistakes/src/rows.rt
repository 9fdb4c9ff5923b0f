use crate::forms::{Plain, expected_of, in_plain};
use crate::mistakes::{Search, inside, missing, shaped, unlike};
use crate::shapes::{Shape, row_shape};
use serde_json::Value;
use std::alloc::Global;

/// An array with a fixed number of members.
#[derive(Clone, Copy)]
pub enum Row {
    /// A semaphore and a value.
    SemaphoreValue,
    /// A wait or a signal of a batch.
    Submit,
    /// The masks of a dependency.
    Dependency,
    /// An element of a barrier on a range of a buffer.
    BufferElement,
    /// An element of a barrier on levels and layers of an image.
    ImageElement,
    /// Levels and layers.
    Range,
    /// A region of a copy between buffers.
    Copy,
    /// A region of a copy between a buffer and an image.
    BufferImageCopy,
    /// A region of a copy between images.
    ImageCopy,
    /// The components of a color.
    Color,
}

/// The members of such an array that are numbers or strings, which are the first ones.
fn members_of(row: Row) -> &'static [Plain] {
    match row {
        Row::SemaphoreValue => &[Plain::Small, Plain::Large],
        Row::Submit => &[Plain::Small, Plain::Large, Plain::Small],
        Row::Dependency | Row::Range | Row::Color => &[Plain::Small; 4],
        Row::Copy => &[Plain::Large; 3],
        Row::ImageElement => &[Plain::Small; 9],
        Row::ImageCopy => &[Plain::Small; 11],
        Row::BufferElement => &[
            Plain::Small,
            Plain::Small,
            Plain::Small,
            Plain::Small,
            Plain::Small,
            Plain::Small,
            Plain::Small,
            Plain::Large,
            Plain::Length,
        ],
        Row::BufferImageCopy => &[
            Plain::Large,
            Plain::Small,
            Plain::Small,
            Plain::Small,
            Plain::Small,
            Plain::Small,
            Plain::Small,
            Plain::Small,
            Plain::Small,
            Plain::Small,
        ],
    }
}

/// What keeps a value from being such an array.
pub fn in_row(alloc: Global, value: &Value, form: Row) -> Search {
    let Some(array) = value.as_array() else {
        return unlike(alloc, "an array", value);
    };
    let values = array.as_slice();
    let members = members_of(form);
    let shape = row_shape(form);
    let found = in_plains(alloc, values, members, shape)?;
    if found.is_some() {
        return Ok(found);
    }
    match form {
        Row::ImageElement => {
            let found = shaped(range_at(alloc, values, members.len()), shape, members.len())?;
            if found.is_some() {
                return Ok(found);
            }
            ended(alloc, values, members.len().saturating_add(1), shape)
        }
        _ => ended(alloc, values, members.len(), shape),
    }
}

/// What keeps the first values from being these members, of an array of a shape.
pub fn in_plains(alloc: Global, values: &[Value], members: &[Plain], shape: Shape) -> Search {
    for (number, form) in members.iter().enumerate() {
        let found = shaped(plain_at(alloc, values, number, *form), shape, number)?;
        if found.is_some() {
            return Ok(found);
        }
    }
    Ok(None)
}

/// The same of one value.
pub fn plain_at(alloc: Global, values: &[Value], number: usize, form: Plain) -> Search {
    match values.get(number) {
        Some(value) => inside(in_plain(alloc, value, form), number),
        None => missing(alloc, expected_of(form)),
    }
}

/// What keeps a value of an image's element from being its levels and layers.
fn range_at(alloc: Global, values: &[Value], number: usize) -> Search {
    let Some(value) = values.get(number) else {
        return missing(alloc, "an array");
    };
    let Some(array) = value.as_array() else {
        return inside(unlike(alloc, "an array", value), number);
    };
    let shape = row_shape(Row::Range);
    let found = in_plains(alloc, array.as_slice(), members_of(Row::Range), shape)?;
    if found.is_some() {
        return inside(Ok(found), number);
    }
    inside(ended(alloc, array.as_slice(), 4, shape), number)
}

/// The value after so many, if there is one, of an array of a shape.
pub fn ended(alloc: Global, values: &[Value], count: usize, shape: Shape) -> Search {
    match values.get(count) {
        Some(value) => {
            let found = inside(unlike(alloc, "the end of the array", value), count);
            shaped(found, shape, shape.names.len())
        }
        None => Ok(None),
    }
}

/// What keeps a value from being an array of such arrays.
pub fn in_rows(alloc: Global, value: &Value, form: Row) -> Search {
    let Some(array) = value.as_array() else {
        return unlike(alloc, "an array", value);
    };
    for (number, item) in array.as_slice().iter().enumerate() {
        let found = in_row(alloc, item, form)?;
        if found.is_some() {
            return inside(Ok(found), number);
        }
    }
    Ok(None)
}
