use crate::identifier_tables as tables;
use crate::in_vulkan::calls_of;
use std::alloc::{AllocError, Global};
use vk_model::{At, Entry, Rule};

/// The identifiers of Vulkan's valid usage for which a rule stands at a point: those of the calls and
/// structures by which the point is made. The only error is want of memory.
pub fn identifiers_of(
    alloc: Global,
    trace: &[Entry],
    at: At,
    rule: Rule,
) -> Result<Vec<&'static str>, AllocError> {
    let mut found = Vec::new(alloc);
    for identifier in all_of(rule) {
        if is_of_any(identifier, calls_of(trace, at)) {
            found.push(*identifier)?;
        }
    }
    Ok(found)
}

/// Adds where the rule book has a rule: the page, and the section in it.
pub fn push_section(out: &mut String, rule: Rule) -> Result<(), AllocError> {
    out.push_str(page_of(rule))?;
    out.push_str("#")?;
    for letter in rule.name().chars() {
        out.push(letter.to_ascii_lowercase())?;
    }
    Ok(())
}

/// The page of the rule book that has a rule.
fn page_of(rule: Rule) -> &'static str {
    match rule {
        Rule::NewId
        | Rule::LiveId
        | Rule::Queue
        | Rule::QueueKind
        | Rule::Size
        | Rule::Usage
        | Rule::MemoryType
        | Rule::MemorySize
        | Rule::PoolSize
        | Rule::BindRange
        | Rule::BindAlign
        | Rule::Aliased
        | Rule::Range
        | Rule::Align
        | Rule::Overlap
        | Rule::Format
        | Rule::Subresource => "docs/RULES.md",
        _ => "docs/RULES_HAZARDS.md",
    }
}

/// Whether an identifier is of one of these calls.
fn is_of_any(identifier: &str, calls: &[&str]) -> bool {
    for call in calls {
        if is_of(identifier.as_bytes(), call.as_bytes()) {
            return true;
        }
    }
    false
}

/// The letters before the call in an identifier.
static BEFORE_CALL: [u8; 5] = *b"VUID-";

/// Whether an identifier is of this call.
fn is_of(identifier: &[u8], call: &[u8]) -> bool {
    match identifier.strip_prefix(&BEFORE_CALL) {
        Some(rest) => rest.starts_with(call),
        None => false,
    }
}

/// The name that validation layers give a hazard (Vulkan-ValidationLayers, "Synchronization
/// Validation"); none of other rules.
pub fn hazard_name(rule: Rule) -> Option<&'static str> {
    match rule {
        Rule::HazardWar => Some("SYNC-HAZARD-WRITE-AFTER-READ"),
        Rule::HazardRaw => Some("SYNC-HAZARD-READ-AFTER-WRITE"),
        Rule::HazardWaw => Some("SYNC-HAZARD-WRITE-AFTER-WRITE"),
        _ => None,
    }
}

/// All identifiers of a rule.
fn all_of(rule: Rule) -> &'static [&'static str] {
    match rule {
        Rule::LiveId => &tables::LIVE_ID,
        Rule::Queue => &tables::QUEUE,
        Rule::QueueKind => &tables::QUEUE_KIND,
        Rule::Size => &tables::SIZE,
        Rule::Usage => &tables::USAGE,
        Rule::MemoryType => &tables::MEMORY_TYPE,
        Rule::MemorySize => &tables::MEMORY_SIZE,
        Rule::BindRange => &tables::BIND_RANGE,
        Rule::BindAlign => &tables::BIND_ALIGN,
        Rule::Range => &tables::RANGE,
        Rule::Align => &tables::ALIGN,
        Rule::Overlap => &tables::OVERLAP,
        Rule::Format => &tables::FORMAT,
        Rule::Subresource => &tables::SUBRESOURCE,
        Rule::Stage => &tables::STAGE,
        Rule::Layout => &tables::LAYOUT,
        Rule::OldLayout => &tables::OLD_LAYOUT,
        Rule::OwnerPair => &tables::OWNER_PAIR,
        Rule::EventState => &tables::EVENT_STATE,
        Rule::EventDependency => &tables::EVENT_DEPENDENCY,
        Rule::SignalValue => &tables::SIGNAL_VALUE,
        Rule::SignalOrder => &tables::SIGNAL_ORDER,
        Rule::WaitBeforeSignal => &tables::WAIT_BEFORE_SIGNAL,
        Rule::MapState => &tables::MAP_STATE,
        Rule::HostVisible => &tables::HOST_VISIBLE,
        Rule::PassBusy => &tables::PASS_BUSY,
        Rule::InUse => &tables::IN_USE,
        _ => &NONE,
    }
}

static NONE: [&str; 0] = [];
