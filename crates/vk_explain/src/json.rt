ghost use Rattle.std.specs.Prelude.{◌≡◌, ◌++◌, codes, IfOk, Some, string_bytes};
ghost use Rattle.vk_model.specs.Rules.Table.{first_fault};
ghost use Rattle.vk_fact_words.specs.FactText.{fact_member as text_of_fact};
ghost use Rattle.vk_fact_words.specs.LinksText.{links_member as text_of_links};
ghost use Rattle.vk_findings.specs.Reports.{IsReport};
ghost use Rattle.vk_explain.specs.Explained.{json_verdict, IsRefusalJson, IsAcceptanceJson};

use crate::identifiers::push_identifier_members;
use crate::notes::{note_words, notes_of};
use crate::repairs::{EditWords, RepairSearch, RepairWords, sought, words_of};
use crate::summary::{Summary, summary_of};
use std::alloc::{AllocError, Global};
use vk_fact_words::{
    cause_member, either_way_member, fact_member, finding_member, is_unknown_here, links_member,
    points_named, push_quoted, values_member,
};
use vk_findings::Report;
use vk_hazards::{Fact, Links};
use vk_mistakes::{place_of, push_pointer};
use vk_model::{At, Entry, Rule};
use vk_words::{point_words, push_at, sentence};

/// The object on a refused trace: verdict, point, rule, the fact that is reported of it, the
/// point's place in the input and in words, what the rule says, and what it finds there; and last these
/// members.
pub fn refusal_json(
    alloc: Global,
    input: &[u8],
    trace: &[Entry],
    report: &Report<'_>,
    last: &str,
) -> Result<String, AllocError>
    requires fault { first_fault trace.now ≡ Some (report.now.at, report.now.rule) }
    requires so { IsReport trace.now report.now }
    ensures { IfOk result (λ text. IsRefusalJson trace.now report.now.at report.now.rule (string_bytes text)) }
{
    let mut text = first_members(alloc, report.at, report.rule, &report.fact, &report.links)?;
    let mut members = later_members(alloc, input, trace, report)?;
    push_end(&mut members, last)?;
    text.push_str(members.as_str())?;
    Ok(text)
}

/// Adds the last members, and the end of the object.
fn push_end(members: &mut String, last: &str) -> Result<(), AllocError> {
    members.push_str(last)?;
    members.push_str("}\n")
}

/// The members behind the fact and its links.
fn later_members(
    alloc: Global,
    input: &[u8],
    trace: &[Entry],
    report: &Report<'_>,
) -> Result<String, AllocError>
    requires { first_fault trace.now ≡ Some (report.now.at, report.now.rule) }
{
    let points = points_named(alloc, &report.fact)?;
    let mut members = named_members(alloc, input, trace, points.as_slice())?;
    let either_way = either_way_member(alloc, &report.fact)?;
    members.push_str(either_way.as_str())?;
    let others = point_members(alloc, input, trace, report)?;
    members.push_str(others.as_str())?;
    Ok(members)
}

/// The member with the points that a fact names, where it names some: each with its place in the input
/// and in words.
fn named_members(
    alloc: Global,
    input: &[u8],
    trace: &[Entry],
    points: &[At],
) -> Result<String, AllocError> {
    let mut member = String::new(alloc);
    for (number, at) in points.iter().enumerate() {
        member.push_str(if number == 0 {
            ",\"named\":[{\"at\":\""
        } else {
            ",{\"at\":\""
        })?;
        push_at(&mut member, *at)?;
        member.push_str("\"")?;
        push_place(&mut member, input, *at)?;
        member.push_str(",\"point\":")?;
        let words = point_words(alloc, trace, *at)?;
        push_quoted(alloc, &mut member, words)?;
        member.push_str("}")?;
    }
    if !points.is_empty() {
        member.push_str("]")?;
    }
    Ok(member)
}

/// Adds the members with the place of a point in the input, where it has one.
fn push_place(members: &mut String, input: &[u8], at: At) -> Result<(), AllocError> {
    match place_of(input, at) {
        Some(place) => {
            let line = place.line;
            let column = place.column;
            write!(members, ",\"line\":{line},\"column\":{column}")
        }
        None => Ok(()),
    }
}

/// The members that say the verdict, with a fact and its links.
fn first_members(
    alloc: Global,
    at: At,
    rule: Rule,
    fact: &Option<Fact<'_>>,
    links: &Option<Links<'_>>,
) -> Result<String, AllocError>
    ensures { IfOk result (λ text. string_bytes text ≡ json_verdict at rule ++ (text_of_fact fact.now ++ text_of_links links.now)) }
{
    let mut text = verdict_members(alloc, at, rule)?;
    let reported = reported_members(alloc, fact, links)?;
    text.push_str(reported.as_str())?;
    Ok(text)
}

/// The members with a fact and with its links.
fn reported_members(
    alloc: Global,
    fact: &Option<Fact<'_>>,
    links: &Option<Links<'_>>,
) -> Result<String, AllocError>
    ensures { IfOk result (λ members. string_bytes members ≡ text_of_fact fact.now ++ text_of_links links.now) }
{
    let mut members = fact_member(alloc, fact)?;
    let linked = links_member(alloc, links)?;
    members.push_str(linked.as_str())?;
    Ok(members)
}

/// The members that say the verdict.
fn verdict_members(alloc: Global, at: At, rule: Rule) -> Result<String, AllocError>
    ensures { IfOk result (λ text. string_bytes text ≡ json_verdict at rule) }
{
    let mut text = String::from_str(alloc, "{\"verdict\":\"refused\",\"at\":\"")?;
    push_at(&mut text, at)?;
    text.push_str("\",\"rule\":\"")?;
    text.push_str(rule.name())?;
    text.push_str("\"")?;
    Ok(text)
}

/// The members that say more of the point and its rule.
fn point_members(
    alloc: Global,
    input: &[u8],
    trace: &[Entry],
    report: &Report<'_>,
) -> Result<String, AllocError>
    requires { first_fault trace.now ≡ Some (report.now.at, report.now.rule) }
{
    let at = report.at;
    let rule = report.rule;
    let mut members = String::new(alloc);
    push_place(&mut members, input, at)?;
    push_identifier_members(alloc, &mut members, trace, at, rule)?;
    let found = finding_member(alloc, &report.finding)?;
    members.push_str(found.as_str())?;
    let cause = cause_member(alloc, trace, &report.cause)?;
    members.push_str(cause.as_str())?;
    let values = values_member(alloc, input, report)?;
    members.push_str(values.as_str())?;
    members.push_str(",\"point\":")?;
    let words = point_words(alloc, trace, at)?;
    push_quoted(alloc, &mut members, words)?;
    members.push_str(",\"sentence\":")?;
    let said = String::from_str(alloc, sentence(rule))?;
    push_quoted(alloc, &mut members, said)?;
    push_repair(alloc, &mut members, trace, at, rule)?;
    push_notes(alloc, &mut members, trace)?;
    Ok(members)
}

/// The member with a repair of the trace, `null` where none is found.
fn push_repair(
    alloc: Global,
    members: &mut String,
    trace: &[Entry],
    at: At,
    rule: Rule,
) -> Result<(), AllocError>
    requires { first_fault trace.now ≡ Some (at, rule) }
{
    if is_unknown_here(trace, at, rule) {
        return members.push_str(",\"repair\":null");
    }
    let found = sought(alloc, trace, at, rule)?;
    let RepairSearch::Found(found) = found else {
        return members.push_str(",\"repair\":null");
    };
    let words = words_of(alloc, trace, at, rule, &found)?;
    members.push_str(",\"repair\":{")?;
    push_repair_members(alloc, members, words)?;
    members.push_str("}")
}

/// Adds the object on a repair that is one of several, with the fault that it's for.
pub(crate) fn push_repair_of(
    alloc: Global,
    out: &mut String,
    at: At,
    rule: Rule,
    words: RepairWords,
) -> Result<(), AllocError> {
    out.push_str("{\"at\":\"")?;
    push_at(out, at)?;
    out.push_str("\",\"rule\":\"")?;
    out.push_str(rule.name())?;
    out.push_str("\",")?;
    push_repair_members(alloc, out, words)?;
    out.push_str("}")
}

/// Adds the members on a repair.
fn push_repair_members(
    alloc: Global,
    members: &mut String,
    words: RepairWords,
) -> Result<(), AllocError> {
    let RepairWords {
        then,
        weaker,
        stands_in,
        edits,
        relies_on,
    } = words;
    members.push_str("\"then\":")?;
    push_quoted(alloc, members, then)?;
    write!(members, ",\"weaker\":{weaker},\"stands_in\":{stands_in}")?;
    members.push_str(",\"edits\":[")?;
    for (number, edit) in edits.into_iter().enumerate() {
        if number > 0 {
            members.push_str(",")?;
        }
        push_edit(alloc, members, edit)?;
    }
    members.push_str("]")?;
    if let Some(at) = relies_on {
        members.push_str(",\"relies_on\":\"")?;
        push_at(members, at)?;
        members.push_str("\"")?;
    }
    Ok(())
}

/// The object on an edit: an operation of JSON Patch with its path, the point, what is done in words,
/// and what is put in as a trace has it.
fn push_edit(alloc: Global, members: &mut String, edit: EditWords) -> Result<(), AllocError> {
    let EditWords {
        operation,
        at,
        point,
        value,
    } = edit;
    members.push_str("{\"op\":\"")?;
    members.push_str(operation)?;
    members.push_str("\"")?;
    if let Some(at) = at {
        members.push_str(",\"path\":\"")?;
        push_pointer(members, at)?;
        members.push_str("\",\"at\":\"")?;
        push_at(members, at)?;
        members.push_str("\"")?;
    }
    members.push_str(",\"edit\":")?;
    push_quoted(alloc, members, point)?;
    if let Some(value) = value {
        members.push_str(",\"value\":")?;
        members.push_str(value.as_str())?;
    }
    members.push_str("}")
}

/// The member with the notes on the trace.
fn push_notes(alloc: Global, members: &mut String, trace: &[Entry]) -> Result<(), AllocError> {
    members.push_str(",\"notes\":[")?;
    let notes = notes_of(alloc, trace)?;
    for (number, note) in notes.iter().enumerate() {
        if number > 0 {
            members.push_str(",")?;
        }
        let words = note_words(alloc, *note)?;
        push_quoted(alloc, members, words)?;
    }
    members.push_str("]")
}

/// The object on an accepted trace: verdict, and what the trace has; and last these members.
pub fn acceptance_json(alloc: Global, trace: &[Entry], last: &str) -> Result<String, AllocError>
    ensures { IfOk result (λ text. IsAcceptanceJson (string_bytes text)) }
{
    let mut text = String::from_str(alloc, "{\"verdict\":\"accepted\"")?;
    let summary = summary_of(alloc, trace)?;
    let mut members = summary_members(alloc, trace, &summary)?;
    push_end(&mut members, last)?;
    text.push_str(members.as_str())?;
    Ok(text)
}

/// The members that say what the trace has.
fn summary_members(
    alloc: Global,
    trace: &[Entry],
    summary: &Summary,
) -> Result<String, AllocError> {
    let mut members = String::new(alloc);
    push_member(&mut members, "entries", summary.entries)?;
    push_member(&mut members, "points", summary.points)?;
    push_member(&mut members, "buffers", summary.buffers)?;
    push_member(&mut members, "images", summary.images)?;
    push_member(&mut members, "memory_objects", summary.memory_objects)?;
    push_member(&mut members, "pools", summary.pools)?;
    push_member(&mut members, "semaphores", summary.semaphores)?;
    push_member(&mut members, "events", summary.events)?;
    push_member(&mut members, "defragmentations", summary.defragmentations)?;
    push_member(&mut members, "passes", summary.passes)?;
    members.push_str(",\"queues\":[")?;
    for (queue, submitted) in summary.queues.iter().enumerate() {
        if queue > 0 {
            members.push_str(",")?;
        }
        let batches = submitted.batches;
        let commands = submitted.commands;
        write!(members, "{{\"batches\":{batches},\"commands\":{commands}}}")?;
    }
    let bytes = summary.read_bytes;
    write!(members, "],\"read_bytes\":{bytes}")?;
    push_notes(alloc, &mut members, trace)?;
    Ok(members)
}

/// A member with a number.
fn push_member(members: &mut String, name: &str, number: usize) -> Result<(), AllocError> {
    write!(members, ",\"{name}\":{number}")
}
