use crate::mistakes::{Search, unlike};
use serde_json::Value;
use std::alloc::Global;

/// A member that is a number or a string.
#[derive(Clone, Copy)]
pub enum Plain {
    /// A number of 32 bits: an id, a mask, a count.
    Small,
    /// A number of 64 bits: an offset, a size, the value of a semaphore.
    Large,
    /// A number of bytes, or `"whole"`.
    Length,
    /// Bytes in hex.
    Bytes,
    /// Who owns a resource.
    Sharing,
    /// How texels lie.
    Tiling,
    /// A format.
    Format,
    /// How the blocks of a pool are placed.
    Algorithm,
}

/// What is expected of such a member.
pub fn expected_of(form: Plain) -> &'static str {
    match form {
        Plain::Small => "a number from 0 to 4294967295",
        Plain::Large => "a number from 0 to 18446744073709551615",
        Plain::Length => "a number from 0 to 18446744073709551615, or \"whole\"",
        Plain::Bytes => "a string of bytes in hex, two digits each",
        Plain::Sharing => "\"exclusive\" or \"concurrent\"",
        Plain::Tiling => "\"optimal\" or \"linear\"",
        Plain::Format => {
            "\"R8_UINT\", \"R8G8_UINT\", \"R8G8B8A8_UINT\", \"R16_UINT\", \"R32_UINT\", \"R32G32_UINT\" or \"R32G32B32A32_UINT\""
        }
        Plain::Algorithm => "\"tlsf\" or \"linear\"",
    }
}

/// Whether a value is such a member.
fn fits(value: &Value, form: Plain) -> bool {
    match form {
        Plain::Small => is_at_most(value, u32::MAX as u64),
        Plain::Large => is_at_most(value, u64::MAX),
        Plain::Length => is_at_most(value, u64::MAX) || is_word(value, &["whole"]),
        Plain::Bytes => is_hex(value),
        Plain::Sharing => is_word(value, &["exclusive", "concurrent"]),
        Plain::Tiling => is_word(value, &["optimal", "linear"]),
        Plain::Format => is_format(value),
        Plain::Algorithm => is_word(value, &["tlsf", "linear"]),
    }
}

/// A misfit, if the value isn't such a member.
pub fn in_plain(alloc: Global, value: &Value, form: Plain) -> Search {
    if fits(value, form) {
        Ok(None)
    } else {
        unlike(alloc, expected_of(form), value)
    }
}

fn is_at_most(value: &Value, most: u64) -> bool {
    match value.as_u64() {
        Some(number) => number <= most,
        None => false,
    }
}

fn is_word(value: &Value, words: &[&str]) -> bool {
    match value.as_str() {
        Some(text) => {
            for word in words {
                if text == *word {
                    return true;
                }
            }
            false
        }
        None => false,
    }
}

fn is_format(value: &Value) -> bool {
    is_word(
        value,
        &[
            "R8_UINT",
            "R8G8_UINT",
            "R8G8B8A8_UINT",
            "R16_UINT",
            "R32_UINT",
            "R32G32_UINT",
            "R32G32B32A32_UINT",
        ],
    )
}

/// Whether a value is a string of an even number of hex digits.
fn is_hex(value: &Value) -> bool {
    match value.as_str() {
        Some(text) => text.len() % 2 == 0 && is_of_digits(text.as_bytes()),
        None => false,
    }
}

fn is_of_digits(digits: &[u8]) -> bool {
    for digit in digits {
        if !digit.is_ascii_hexdigit() {
            return false;
        }
    }
    true
}
