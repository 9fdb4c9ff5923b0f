use std::alloc::{AllocError, Global};
use vk_fact_words::{hazard_name, identifiers_of, push_section, right_in_vulkan};
use vk_model::{At, Entry, Rule};

/// How many identifiers a text names at most.
const MOST_NAMED: usize = 4;

/// The lines with what Vulkan has and isn't judged, where the point may be right there, with the name that
/// validation layers give a hazard, with the identifiers of valid usage for which the rule stands at the point,
/// where there are some, and with the section of the rule book.
pub fn identifier_lines(
    alloc: Global,
    trace: &[Entry],
    at: At,
    rule: Rule,
) -> Result<String, AllocError> {
    let mut lines = String::new(alloc);
    if let Some(more) = right_in_vulkan(trace, at, rule) {
        lines.push_str("  this may be right in Vulkan: ")?;
        lines.push_str(more)?;
        lines.push_str("\n")?;
    }
    if let Some(name) = hazard_name(rule) {
        lines.push_str("  validation layers call it ")?;
        lines.push_str(name)?;
        lines.push_str("\n")?;
    }
    let found = identifiers_of(alloc, trace, at, rule)?;
    for (number, identifier) in found.iter().enumerate().take(MOST_NAMED) {
        lines.push_str(if number == 0 { "  valid usage: " } else { ", " })?;
        lines.push_str(identifier)?;
    }
    if found.len() > MOST_NAMED {
        let more = found.len() - MOST_NAMED;
        write!(lines, " and {more} more")?;
    }
    if !found.is_empty() {
        lines.push_str("\n")?;
    }
    lines.push_str("  rule book: ")?;
    push_section(&mut lines, rule)?;
    lines.push_str("\n")?;
    Ok(lines)
}

/// Adds the members with the same: all identifiers, in an array.
pub fn push_identifier_members(
    alloc: Global,
    members: &mut String,
    trace: &[Entry],
    at: At,
    rule: Rule,
) -> Result<(), AllocError> {
    if let Some(more) = right_in_vulkan(trace, at, rule) {
        members.push_str(",\"right_in_vulkan\":\"")?;
        members.push_str(more)?;
        members.push_str("\"")?;
    }
    if let Some(name) = hazard_name(rule) {
        members.push_str(",\"hazard\":\"")?;
        members.push_str(name)?;
        members.push_str("\"")?;
    }
    members.push_str(",\"section\":\"")?;
    push_section(members, rule)?;
    members.push_str("\",\"identifiers\":[")?;
    let found = identifiers_of(alloc, trace, at, rule)?;
    for (number, identifier) in found.iter().enumerate() {
        members.push_str(if number == 0 { "\"" } else { ",\"" })?;
        members.push_str(identifier)?;
        members.push_str("\"")?;
    }
    members.push_str("]")
}
