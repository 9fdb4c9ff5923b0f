use std::alloc::AllocError;
use vk_model::{Length, Place, PoolKind};
use vk_words::push_digits;

/// The word for how the blocks of a pool are placed.
pub fn algorithm_word(kind: PoolKind) -> &'static str {
    match kind {
        PoolKind::Tlsf => "tlsf",
        PoolKind::Linear => "linear",
    }
}

/// Adds a place of a resource.
pub fn push_place(out: &mut String, place: Place) -> Result<(), AllocError> {
    match place {
        Place::Dedicated { memory_type } => write!(out, "[\"dedicated\",{memory_type}]"),
        Place::Memory { memory, offset } => write!(out, "[\"memory\",{memory},{offset}]"),
        Place::Pool { pool } => write!(out, "[\"pool\",{pool}]"),
        Place::PoolUpper { pool } => write!(out, "[\"pool_upper\",{pool}]"),
    }
}

/// Adds a number of bytes, or that all to the end are meant.
pub fn push_length(out: &mut String, length: Length) -> Result<(), AllocError> {
    match length {
        Length::Bytes(bytes) => write!(out, "{bytes}"),
        Length::Whole => out.push_str("\"whole\""),
    }
}

/// Adds bytes as a string of lower hex.
pub fn push_bytes(out: &mut String, bytes: &[u8]) -> Result<(), AllocError> {
    out.push_str("\"")?;
    push_digits(out, bytes)?;
    out.push_str("\"")
}
