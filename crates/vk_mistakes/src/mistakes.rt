use crate::shapes::Shape;
use serde_json::Value;
use std::alloc::{AllocError, Global};

/// The most bytes of a value that are shown.
const MOST_SHOWN: usize = 60;

/// What keeps a value of JSON from being a member of a trace.
#[derive(Drop)]
pub struct Misfit {
    /// The numbers of the members that lead to it, the innermost first.
    pub outward: Vec<usize>,
    /// The shape of the array that it is a member of, where one is known.
    pub shape: Option<Shape>,
    /// Which of the names of that shape it has, counted from 0.
    pub index: usize,
    /// What is expected.
    pub expected: &'static str,
    /// What is there.
    pub found: String,
}

/// What is looked for: a misfit, if there is one, or want of memory.
pub type Search = Result<Option<Misfit>, AllocError>;

/// A value that isn't what is expected.
pub fn unlike(alloc: Global, expected: &'static str, value: &Value) -> Search {
    let found = shown(alloc, value)?;
    found_there(alloc, expected, found)
}

/// A number or a string as it is written, where it is short; else what the value is.
fn shown(alloc: Global, value: &Value) -> Result<String, AllocError> {
    if let Value::Number(_) | Value::String(_) = value {
        let text = value.to_string(alloc)?;
        if text.len() <= MOST_SHOWN {
            return Ok(text);
        }
    }
    String::from_str(alloc, kind_name(value))
}

/// What is there in place of what is expected.
fn found_there(alloc: Global, expected: &'static str, found: String) -> Search {
    Ok(Some(Misfit {
        outward: Vec::new(alloc),
        shape: None,
        index: 0,
        expected,
        found,
    }))
}

/// An array that ends too early.
pub fn missing(alloc: Global, expected: &'static str) -> Search {
    let end = String::from_str(alloc, "the end of the array")?;
    found_there(alloc, expected, end)
}

/// The same, as a misfit in the member with this number.
pub fn inside(found: Search, number: usize) -> Search {
    match found? {
        Some(mut misfit) => {
            misfit.outward.push(number)?;
            Ok(Some(misfit))
        }
        None => Ok(None),
    }
}

/// The same, as a misfit in an array of a shape, by which of its names; of one in an array within, whose
/// shape is known, that one stays.
pub fn shaped(found: Search, shape: Shape, index: usize) -> Search {
    match found? {
        Some(mut misfit) => {
            if misfit.shape.is_none() {
                misfit.shape = Some(shape);
                misfit.index = index;
            }
            Ok(Some(misfit))
        }
        None => Ok(None),
    }
}

/// What a value is.
fn kind_name(value: &Value) -> &'static str {
    match value {
        Value::Null => "null",
        Value::Bool(_) => "true or false",
        Value::Number(_) => "a number",
        Value::String(_) => "a string",
        Value::Array(_) => "an array",
        Value::Object(_) => "an object",
    }
}
