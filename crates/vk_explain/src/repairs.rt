ghost use Rattle.std.specs.Prelude.{◌≡◌, IfOk, Some};
ghost use Rattle.vk_model.specs.Rules.Table.{first_fault};
ghost use Rattle.vk_explain.specs.Inner.Repaired.{IsSought};

use crate::listing::{Listed, in_listed_order};
use crate::summary::summary_of;
use std::alloc::{AllocError, Global};
use vk_candidates::{Change, Edit, InBatch, Member};
use vk_fact_words::is_unknown_here;
use vk_hazards::{Links, at_of, fact_of_fault, links_of_fact};
use vk_model::{At, BufferImageCopy, Cmd, Element, Entry, Rule};
use vk_repairs::{Repair, repair};
use vk_words::{kind_name, point_words, push_at};
use vk_writer::{command_json, entry_json, submit_json};

/// In a trace of more points no repair is sought, as each one that is tried is judged as a whole.
const MOST_POINTS: usize = 4_096;

/// Nor in one whose commands and batches have more regions, ranges, elements, waits and signals.
const MOST_PARTS: usize = 16_384;

/// What came of the search for a repair.
#[derive(Drop)]
pub enum RepairSearch {
    /// The trace has too many points or parts, and none was sought.
    TooLarge,
    /// None was found.
    Nothing,
    /// A repair.
    Found(Repair),
}

/// An edit of a repair.
#[derive(Drop)]
pub struct EditWords {
    /// What is done, as an operation of JSON Patch (RFC 6902).
    pub operation: &'static str,
    /// The point that it puts in or takes out, by the numbers that points have when the edits before it
    /// are made; none where a number would be too large.
    pub at: Option<At>,
    /// What is done, and that point.
    pub point: String,
    /// What is put in, as JSON.
    pub value: Option<String>,
}

/// A repair in words.
#[derive(Drop)]
pub struct RepairWords {
    /// What the rules say of the changed trace.
    pub then: String,
    /// Whether that asks for less than the given trace did, or for other bytes.
    pub weaker: bool,
    /// Whether it has data that stand in for what the given trace lacks.
    pub stands_in: bool,
    /// Each edit, in an order in which they come right one after another.
    pub edits: Vec<EditWords>,
    /// What makes a write available that a barrier makes visible without an access in its first scope.
    pub relies_on: Option<At>,
}

/// The repair of a refused trace, if one is found. The only error is want of memory.
pub fn sought(
    alloc: Global,
    trace: &[Entry],
    at: At,
    rule: Rule,
) -> Result<RepairSearch, AllocError>
    requires { first_fault trace.now ≡ Some (at, rule) }
    ensures { IfOk result (IsSought trace.now at) }
{
    let summary = summary_of(alloc, trace)?;
    if summary.points > MOST_POINTS || summary.parts > MOST_PARTS {
        return Ok(RepairSearch::TooLarge);
    }
    match repair(alloc, trace, at, rule)? {
        Some(found) => Ok(RepairSearch::Found(found)),
        None => Ok(RepairSearch::Nothing),
    }
}

/// The lines on the repair of a refused trace.
pub fn repair_lines(
    alloc: Global,
    trace: &[Entry],
    at: At,
    rule: Rule,
) -> Result<String, AllocError>
    requires { first_fault trace.now ≡ Some (at, rule) }
{
    if is_unknown_here(trace, at, rule) {
        return String::from_str(
            alloc,
            "  repair: none is offered, as it would take out what isn't judged here\n",
        );
    }
    match sought(alloc, trace, at, rule)? {
        RepairSearch::Found(found) => {
            let words = words_of(alloc, trace, at, rule, &found)?;
            lines_of(alloc, &words, found.next)
        }
        RepairSearch::Nothing => String::from_str(alloc, NONE_FOUND),
        RepairSearch::TooLarge => none_sought(alloc),
    }
}

/// The line where no repair is found.
pub(crate) const NONE_FOUND: &str = "  repair: none found\n";

/// The line where the trace is too large.
pub(crate) fn none_sought(alloc: Global) -> Result<String, AllocError> {
    let mut line = String::from_str(
        alloc,
        "  repair: none is sought in a trace of more than 4,096 points, or of more than 16,384 ",
    )?;
    line.push_str("regions, ranges, elements, waits and signals\n")?;
    Ok(line)
}

/// The lines on a repair, after which this is the first fault.
pub(crate) fn lines_of(
    alloc: Global,
    words: &RepairWords,
    next: Option<(At, Rule)>,
) -> Result<String, AllocError> {
    let mut lines = String::from_str(alloc, repair_name(words))?;
    lines.push_str(": with ")?;
    push_edits(&mut lines, words.edits.len())?;
    push_next(&mut lines, next)?;
    lines.push_str(numbering(words))?;
    lines.push_str("\n")?;
    for edit in &words.edits {
        lines.push_str("    ")?;
        lines.push_str(edit.point.as_str())?;
        lines.push_str("\n")?;
        if let Some(value) = &edit.value {
            lines.push_str("      ")?;
            lines.push_str(value.as_str())?;
            lines.push_str("\n")?;
        }
    }
    if let Some(at) = words.relies_on {
        lines.push_str("    the barrier names no access before it, as ")?;
        lines.push_str(kind_name(at))?;
        push_at(&mut lines, at)?;
        lines.push_str(" (before the edits) makes the write available\n")?;
    }
    Ok(lines)
}

/// By which trace the points of several edits are numbered.
fn numbering(words: &RepairWords) -> &'static str {
    if words.edits.len() < 2 {
        ""
    } else if words
        .edits
        .as_slice()
        .iter()
        .any(|edit| edit.value.is_none())
    {
        "; points are numbered as in the changed trace, those taken out as in the given one"
    } else {
        "; points are numbered as in the changed trace"
    }
}

fn repair_name(words: &RepairWords) -> &'static str {
    if words.stands_in {
        "  repair with zeros or objects that stand in for what the trace lacks"
    } else if words.weaker {
        "  weaker repair, which changes what the trace asks for"
    } else {
        "  repair"
    }
}

fn push_edits(lines: &mut String, count: usize) -> Result<(), AllocError> {
    if count == 1 {
        lines.push_str("this edit")
    } else {
        write!(lines, "these {count} edits")
    }
}

/// What is so after a repair.
fn push_next(lines: &mut String, next: Option<(At, Rule)>) -> Result<(), AllocError> {
    match next {
        Some((at, rule)) => {
            lines.push_str(" the next fault is at ")?;
            push_at(lines, at)?;
            lines.push_str(", by ")?;
            lines.push_str(rule.name())
        }
        None => lines.push_str(" the trace is accepted"),
    }
}

/// A repair in words, of a trace whose first fault is given.
pub fn words_of(
    alloc: Global,
    trace: &[Entry],
    at: At,
    rule: Rule,
    found: &Repair,
) -> Result<RepairWords, AllocError>
    requires { first_fault trace.now ≡ Some (at, rule) }
{
    let relies_on = relies_on(alloc, trace, at, rule, found.edits.as_slice())?;
    let then = next_words(alloc, found.next)?;
    let mut edits = Vec::new(alloc);
    for one in &in_listed_order(alloc, found.edits.as_slice())? {
        let edit = found.edits.get(one.number);
        let point = edit_words(alloc, trace, found, *one)?;
        let value = value_of(alloc, edit)?;
        edits.push(EditWords {
            operation: operation_of(edit),
            at: one.at,
            point,
            value,
        })?;
    }
    let is_elsewhere = found
        .edits
        .as_slice()
        .iter()
        .any(|edit| names_other_bytes(trace, edit));
    Ok(RepairWords {
        then,
        weaker: found.weaker || is_elsewhere,
        stands_in: found.stands_in,
        edits,
        relies_on,
    })
}

/// What makes the write of a hazard available, where an edit inserts a barrier without an access in its first
/// scope.
fn relies_on(
    alloc: Global,
    trace: &[Entry],
    at: At,
    rule: Rule,
    edits: &[Edit],
) -> Result<Option<At>, AllocError>
    requires { first_fault trace.now ≡ Some (at, rule) }
{
    if !edits.iter().any(is_bare) {
        return Ok(None);
    }
    let fact = fact_of_fault(alloc, trace, at, rule)?;
    match links_of_fact(alloc, trace, at, rule, &fact)? {
        Some(links) => Ok(available_by(&links)),
        None => Ok(None),
    }
}

/// What makes the write of a hazard available.
fn available_by(links: &Links<'_>) -> Option<At> {
    let node = links.available?;
    Some(at_of(&node.row.point))
}

/// Whether an edit inserts a barrier that names accesses after it, and none before it.
fn is_bare(edit: &Edit) -> bool {
    let Edit::Member {
        change: Change::Insert,
        member: Member::Command(Cmd::Barrier { elements }),
        ..
    } = edit
    else {
        return false;
    };
    elements.as_slice().iter().any(|element| match element {
        Element::Memory(dependency) => {
            dependency.source_accesses.0 == 0 && dependency.destination_accesses.0 != 0
        }
        _ => false,
    })
}

/// Whether an edit replaces a fill, or a copy between a buffer and an image, by one of other bytes of the
/// buffer.
fn names_other_bytes(trace: &[Entry], edit: &Edit) -> bool {
    let Edit::Member {
        change: Change::Replace,
        at,
        member: Member::Command(command),
    } = edit
    else {
        return false;
    };
    match (command_at(trace, *at), command) {
        (
            Some(
                Cmd::Fill {
                    offset: given,
                    size: length,
                    ..
                },
            ),
            Cmd::Fill { offset, size, .. },
        ) => given != offset || length != size,
        (Some(Cmd::CopyIn { regions: given, .. }), Cmd::CopyIn { regions, .. }) => {
            are_other_rows(given.as_slice(), regions.as_slice())
        }
        (Some(Cmd::CopyOut { regions: given, .. }), Cmd::CopyOut { regions, .. }) => {
            are_other_rows(given.as_slice(), regions.as_slice())
        }
        _ => false,
    }
}

/// The command at a place of a batch.
fn command_at(trace: &[Entry], at: InBatch) -> Option<&Cmd> {
    let Entry::Submit { batches, .. } = trace.get(at.entry)? else {
        return None;
    };
    batches
        .as_slice()
        .get(at.batch)?
        .commands
        .as_slice()
        .get(at.place)
}

/// Whether regions have other row lengths or image heights, one for one.
fn are_other_rows(given: &[BufferImageCopy], regions: &[BufferImageCopy]) -> bool {
    given.len() == regions.len()
        && given.iter().zip(regions).any(|(one, other)| {
            one.row_length != other.row_length || one.image_height != other.image_height
        })
}

/// That a trace is accepted, or its first fault.
fn next_words(alloc: Global, next: Option<(At, Rule)>) -> Result<String, AllocError> {
    match next {
        Some((at, rule)) => {
            let mut words = String::from_str(alloc, "refused ")?;
            push_at(&mut words, at)?;
            words.push_str(" ")?;
            words.push_str(rule.name())?;
            Ok(words)
        }
        None => String::from_str(alloc, "accepted"),
    }
}

/// An edit of a repair: what is done, and the point that it puts in or takes out.
fn edit_words(
    alloc: Global,
    trace: &[Entry],
    found: &Repair,
    listed: Listed,
) -> Result<String, AllocError> {
    match found.edits.get(listed.number) {
        Some(Edit::Entry { change, .. } | Edit::Member { change, .. }) => changed_words(
            alloc,
            found.changed.as_slice(),
            change_name(*change),
            listed.at,
        ),
        Some(Edit::Remove { .. }) => changed_words(alloc, trace, "remove: ", listed.at),
        None => String::from_str(alloc, ""),
    }
}

/// What an edit does to the array that it changes.
fn operation_of(edit: Option<&Edit>) -> &'static str {
    match edit {
        Some(Edit::Entry { change, .. } | Edit::Member { change, .. }) => match change {
            Change::Insert => "add",
            Change::Replace => "replace",
        },
        Some(Edit::Remove { .. }) | None => "remove",
    }
}

/// What an edit puts in, as JSON.
fn value_of(alloc: Global, edit: Option<&Edit>) -> Result<Option<String>, AllocError> {
    let value = match edit {
        Some(Edit::Entry { entry, .. }) => entry_json(alloc, entry)?,
        Some(Edit::Member { member, .. }) => match member {
            Member::Wait(submit) | Member::Signal(submit) => submit_json(alloc, submit)?,
            Member::Command(command) => command_json(alloc, command)?,
        },
        Some(Edit::Remove { .. }) | None => return Ok(None),
    };
    Ok(Some(value))
}

/// What is done, and a point of a trace.
fn changed_words(
    alloc: Global,
    trace: &[Entry],
    done: &str,
    at: Option<At>,
) -> Result<String, AllocError> {
    let mut words = String::from_str(alloc, done)?;
    if let Some(at) = at {
        let point = point_words(alloc, trace, at)?;
        words.push_str(point.as_str())?;
    }
    Ok(words)
}

fn change_name(change: Change) -> &'static str {
    match change {
        Change::Insert => "insert: ",
        Change::Replace => "replace by: ",
    }
}
