use std::alloc::AllocError;

/// Something before it, a count, and the word for one thing or for several, as `1 byte`.
pub fn push_count(
    out: &mut String,
    before: &str,
    count: u64,
    one: &str,
    several: &str,
) -> Result<(), AllocError> {
    match count {
        1 => write!(out, "{before}1 {one}"),
        _ => write!(out, "{before}{count} {several}"),
    }
}
