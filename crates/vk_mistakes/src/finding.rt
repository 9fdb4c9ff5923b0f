use crate::entries::trace;
use crate::mistakes::Misfit;
use crate::nesting::first_nested;
use crate::objects::count_objects;
use crate::shapes::Shape;
use serde_json::Value;
use std::alloc::{AllocError, Global};

/// The most objects of an input whose value is built: each takes up to a thousand bytes there, and no
/// trace has one.
const MOST_OBJECTS: u64 = 65_536;

/// The most arrays of an input of which one lies in another and whose value is built, as many as a trace
/// has: each takes up to a thousand bytes of the stack there, and an object several thousand.
const MOST_NESTED: u64 = 9;

/// Where something begins in an input that is no trace.
#[derive(Drop)]
pub enum MistakePlace {
    /// At a byte, counted from 0.
    Byte(usize),
    /// At a line and a column, each counted from 1.
    Line {
        /// The line.
        line: usize,
        /// The column.
        column: usize,
    },
    /// At the member that these numbers lead to from the outermost array; at that array itself where
    /// there are none.
    Member(Vec<usize>),
}

/// What keeps an input from being a trace.
#[derive(Drop)]
pub struct Mistake {
    /// Where.
    pub place: MistakePlace,
    /// The array in which it is a member, as it is to be written, where that is known.
    pub form: Option<String>,
    /// The name that the member has there.
    pub name: Option<&'static str>,
    /// What is expected there.
    pub expected: &'static str,
    /// What is there.
    pub found: String,
}

/// The first thing that keeps an input from being a trace, where something does. It reads the input
/// anew.
///
/// # Errors
///
/// Where no memory is left.
pub fn mistake_of(alloc: Global, input: &[u8]) -> Result<Option<Mistake>, AllocError> {
    let Ok(text) = str::from_utf8(input) else {
        let place = MistakePlace::Byte(utf8_until(input));
        return nameless(alloc, place, "UTF-8", "other bytes");
    };
    if let Some(place) = first_object(alloc, text)? {
        let expected = "an array, a string or a number";
        return nameless(alloc, MistakePlace::Byte(place), expected, "an object");
    }
    if let Some(place) = first_nested(alloc, text, MOST_NESTED)? {
        let expected = "at most nine arrays nested in each other";
        return nameless(alloc, MistakePlace::Byte(place), expected, "one more");
    }
    match Value::from_str(alloc, text) {
        Ok(value) => mistake_in(alloc, &value),
        Err(error) if error.is_memory() => Err(AllocError),
        Err(error) => {
            let place = MistakePlace::Line {
                line: error.line(),
                column: error.column(),
            };
            let found = if error.is_eof() {
                "the end of the input"
            } else {
                "a syntax error"
            };
            nameless(alloc, place, "valid JSON", found)
        }
    }
}

/// What is wrong at a place that is no member of an array of a known form.
fn nameless(
    alloc: Global,
    place: MistakePlace,
    expected: &'static str,
    found: &str,
) -> Result<Option<Mistake>, AllocError> {
    Ok(Some(Mistake {
        place,
        form: None,
        name: None,
        expected,
        found: String::from_str(alloc, found)?,
    }))
}

/// An array as it is to be written: its word, and the names of its other members.
fn form_of(alloc: Global, shape: Shape) -> Result<String, AllocError> {
    let mut form = String::from_str(alloc, "[")?;
    if let Some(word) = shape.word {
        write!(form, "\"{word}\"")?;
    }
    for (number, name) in shape.names.iter().enumerate() {
        if number > 0 || shape.word.is_some() {
            form.push_str(", ")?;
        }
        form.push_str(name)?;
    }
    form.push_str("]")?;
    Ok(form)
}

/// The first thing that keeps a value from being a trace.
fn mistake_in(alloc: Global, value: &Value) -> Result<Option<Mistake>, AllocError> {
    let Some(misfit) = trace(alloc, value)? else {
        return Ok(None);
    };
    let Misfit {
        outward: mut inward,
        shape,
        index,
        expected,
        found,
    } = misfit;
    inward.as_mut_slice().reverse();
    let form = match shape {
        Some(shape) => Some(form_of(alloc, shape)?),
        None => None,
    };
    let name = match shape {
        Some(shape) => shape.names.get(index).copied(),
        None => None,
    };
    Ok(Some(Mistake {
        place: MistakePlace::Member(inward),
        form,
        name,
        expected,
        found,
    }))
}

/// The byte at which the first object of a text begins, where it has too many, or one in another.
fn first_object(alloc: Global, text: &str) -> Result<Option<usize>, AllocError> {
    if !text.as_bytes().contains(&b'{') {
        return Ok(None);
    }
    match count_objects(alloc, text)? {
        Some(objects) if objects.count > MOST_OBJECTS || objects.nested => Ok(Some(objects.first)),
        _ => Ok(None),
    }
}

/// How many bytes at the start of an input are UTF-8.
fn utf8_until(input: &[u8]) -> usize {
    match str::from_utf8(input) {
        Ok(text) => text.len(),
        Err(error) => error.valid_up_to(),
    }
}
