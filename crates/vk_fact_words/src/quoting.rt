use serde_json::Value;
use std::alloc::{AllocError, Global};

/// Adds a text as a string of JSON.
pub fn push_quoted(alloc: Global, out: &mut String, text: String) -> Result<(), AllocError> {
    let quoted = Value::String(text).to_string(alloc)?;
    out.push_str(quoted.as_str())
}
