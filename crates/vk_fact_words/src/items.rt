use std::alloc::AllocError;
use vk_model::Length;
use vk_rules::Item;
use vk_words::push_count;

/// Adds which item of a point is meant, and a colon; of the only one nothing.
pub fn push_item(out: &mut String, item: Item) -> Result<(), AllocError> {
    match item {
        Item::Only => Ok(()),
        Item::Source(index) => write!(out, "source of region {index}: "),
        Item::Destination(index) => write!(out, "destination of region {index}: "),
        Item::Region(index) => write!(out, "region {index}: "),
        Item::Range(index) => write!(out, "range {index}: "),
        Item::Element(index) => write!(out, "element {index}: "),
    }
}

/// Adds a range of bytes of a buffer.
pub fn push_bytes(out: &mut String, offset: u64, bytes: Length) -> Result<(), AllocError> {
    match bytes {
        Length::Bytes(bytes) => {
            push_count(out, "", bytes, "byte", "bytes")?;
            write!(out, " from byte {offset} on")
        }
        Length::Whole => write!(out, "all bytes from byte {offset} on"),
    }
}
