ghost use Rattle.std.specs.Prelude.{◌≡◌, IfOk, Some};
ghost use Rattle.serde_json.specs.Read.{read};
ghost use Rattle.serde_json.specs.View.{view};
ghost use Rattle.vk_calls.specs.Calls.{data_of};

use crate::calls::Calls;
use crate::errors::{CallsError, CallsMistake, CallsPlace};
use crate::forms::{Misfit, misfit_of};
use serde_json::{Error, Value};
use std::alloc::{AllocError, Global};
use vk_mistakes::{count_objects, first_nested};

/// The most objects of a file: each takes up to a thousand bytes when it is read. A trace has at most
/// 131,072 entries, and as many buffers and images.
const MOST_OBJECTS: u64 = 262_146;

/// How many arrays and objects of a file lie in each other at most.
const MOST_NESTED: u64 = 6;

/// The calls that a file has, as `tools/from_capture.py --names` writes it beside a trace.
///
/// # Errors
///
/// `NoMemory`, and what keeps the bytes from being such a file.
pub fn read_calls(alloc: Global, input: &[u8]) -> Result<Calls, CallsError>
    ensures { IfOk result (λ calls. read input.now ≡ Some (data_of calls)) }
{
    let text = match str::from_utf8(input) {
        Ok(text) => text,
        Err(error) => return Err(at_byte(error.valid_up_to(), "UTF-8", "other bytes")),
    };
    if let Some(error) = too_large(alloc, text)? {
        return Err(error);
    }
    match Value::from_str(alloc, text) {
        Ok(value) => calls_of(alloc, value),
        Err(error) => Err(unread(&error)),
    }
}

/// The calls of a value of JSON.
fn calls_of(alloc: Global, value: Value) -> Result<Calls, CallsError>
    ensures { IfOk result (λ calls. data_of calls ≡ view value) }
{
    match misfit_of(alloc, &value)? {
        Some(misfit) => Err(unfit(misfit)),
        None => Ok(Calls { value }),
    }
}

/// That a text has more than what is read, or lies deeper in itself.
fn too_large(alloc: Global, text: &str) -> Result<Option<CallsError>, AllocError> {
    if let Some(place) = first_nested(alloc, text, MOST_NESTED)? {
        let expected = "at most six arrays and objects nested in each other";
        return Ok(Some(at_byte(place, expected, "one more")));
    }
    match count_objects(alloc, text)? {
        Some(objects) if objects.count > MOST_OBJECTS => {
            let expected = "at most 262,146 objects";
            Ok(Some(at_byte(objects.first, expected, "more")))
        }
        _ => Ok(None),
    }
}

/// That a text is no JSON.
fn unread(error: &Error) -> CallsError {
    if error.is_memory() {
        return CallsError::NoMemory;
    }
    CallsError::Mistake(CallsMistake {
        place: CallsPlace::Line {
            line: error.line(),
            column: error.column(),
        },
        expected: "valid JSON",
        found: if error.is_eof() {
            "the end of the file"
        } else {
            "a syntax error"
        },
    })
}

/// That a value has another form.
fn unfit(misfit: Misfit) -> CallsError {
    let Misfit {
        member,
        expected,
        found,
    } = misfit;
    CallsError::Mistake(CallsMistake {
        place: CallsPlace::Member(member),
        expected,
        found,
    })
}

/// A mistake at a byte, counted from 0.
fn at_byte(byte: usize, expected: &'static str, found: &'static str) -> CallsError {
    CallsError::Mistake(CallsMistake {
        place: CallsPlace::Byte(byte),
        expected,
        found,
    })
}
