use serde_json::Value;
use std::alloc::{AllocError, Global};

/// What keeps a value of JSON from being a file with calls.
#[derive(Drop)]
pub struct Misfit {
    /// Where, as a JSON pointer.
    pub member: String,
    /// What is expected there.
    pub expected: &'static str,
    /// What is there.
    pub found: &'static str,
}

/// What is looked for: a misfit, if there is one, or want of memory.
type Search = Result<Option<Misfit>, AllocError>;

/// What is asked of an array.
const AN_ARRAY: &str = "an array";

/// What is asked of the number of a call.
const A_NUMBER: &str = "a number from 0 to 18446744073709551615";

/// What is asked of a name: it is written into texts and objects as it is.
const A_NAME: &str = "a string of printable ASCII without quotes and backslashes";

/// The first thing that keeps a value from being a file with calls.
pub fn misfit_of(alloc: Global, file: &Value) -> Search {
    let path = String::from_str(alloc, "/entries")?;
    let entries = match file.get("entries") {
        Some(Value::Array(entries)) => entries,
        other => return unlike(path, AN_ARRAY, other),
    };
    for (number, entry) in entries.iter().enumerate() {
        let found = in_entry(alloc, path.as_str(), number, entry)?;
        if found.is_some() {
            return Ok(found);
        }
    }
    Ok(None)
}

/// The same of the object of an entry.
fn in_entry(alloc: Global, path: &str, number: usize, entry: &Value) -> Search {
    let path = format!(in alloc; "{path}/{number}")?;
    let call = entry.get("call");
    if !is_number(call) {
        return unlike(format!(in alloc; "{path}/call")?, A_NUMBER, call);
    }
    let name = entry.get("name");
    if !is_name(name) {
        return unlike(format!(in alloc; "{path}/name")?, A_NAME, name);
    }
    let why = entry.get("why");
    if why.is_some() && !is_name(why) {
        return unlike(format!(in alloc; "{path}/why")?, A_NAME, why);
    }
    match entry.get("batches") {
        Some(batches) => in_batches(alloc, path.as_str(), batches),
        None => Ok(None),
    }
}

/// The same of the batches of a submit.
fn in_batches(alloc: Global, path: &str, batches: &Value) -> Search {
    let path = format!(in alloc; "{path}/batches")?;
    let Value::Array(batches) = batches else {
        return unlike(path, AN_ARRAY, Some(batches));
    };
    for (number, batch) in batches.iter().enumerate() {
        let found = in_batch(alloc, path.as_str(), number, batch)?;
        if found.is_some() {
            return Ok(found);
        }
    }
    Ok(None)
}

/// The same of a batch, whose commands are pairs.
fn in_batch(alloc: Global, path: &str, number: usize, batch: &Value) -> Search {
    let path = format!(in alloc; "{path}/{number}")?;
    let Value::Array(pairs) = batch else {
        return unlike(path, AN_ARRAY, Some(batch));
    };
    for (number, pair) in pairs.iter().enumerate() {
        let found = in_pair(alloc, path.as_str(), number, pair)?;
        if found.is_some() {
            return Ok(found);
        }
    }
    Ok(None)
}

/// The same of the number and the name of a command.
fn in_pair(alloc: Global, path: &str, number: usize, pair: &Value) -> Search {
    let call = pair.get(0usize);
    if !is_number(call) {
        return unlike(format!(in alloc; "{path}/{number}/0")?, A_NUMBER, call);
    }
    let name = pair.get(1usize);
    if !is_name(name) {
        return unlike(format!(in alloc; "{path}/{number}/1")?, A_NAME, name);
    }
    Ok(None)
}

/// Something that isn't as it is expected.
fn unlike(member: String, expected: &'static str, value: Option<&Value>) -> Search {
    Ok(Some(Misfit {
        member,
        expected,
        found: kind_name(value),
    }))
}

fn is_number(value: Option<&Value>) -> bool {
    match value {
        Some(value) => value.as_u64().is_some(),
        None => false,
    }
}

fn is_name(value: Option<&Value>) -> bool {
    match value {
        Some(Value::String(text)) => is_plain(text.as_bytes()),
        _ => false,
    }
}

/// Whether bytes are printable ASCII without quotes and backslashes.
fn is_plain(text: &[u8]) -> bool {
    for byte in text {
        if !matches!(*byte, b' '..=b'~') || matches!(*byte, b'"' | b'\\') {
            return false;
        }
    }
    true
}

/// What a value is.
fn kind_name(value: Option<&Value>) -> &'static str {
    match value {
        None => "nothing",
        Some(Value::Null) => "null",
        Some(Value::Bool(_)) => "true or false",
        Some(Value::Number(_)) => "a number",
        Some(Value::String(_)) => "a string",
        Some(Value::Array(_)) => "an array",
        Some(Value::Object(_)) => "an object",
    }
}
