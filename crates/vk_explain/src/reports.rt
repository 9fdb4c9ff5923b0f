ghost use Rattle.std.specs.Prelude.{◌≡◌, ◌++◌, codes, IfOk, Some, string_bytes};
ghost use Rattle.vk_model.specs.Rules.Table.{first_fault};
ghost use Rattle.vk_words.specs.Points.{kind_text, at_text, BeginsWith};
ghost use Rattle.vk_fact_words.specs.FactText.{fact_line as text_of_fact};
ghost use Rattle.vk_fact_words.specs.LinksText.{links_line as text_of_links};
ghost use Rattle.vk_findings.specs.Reports.{IsReport};
ghost use Rattle.vk_explain.specs.Explained.{rule_line, IsRefusalText, IsAcceptanceText};

use crate::identifiers::identifier_lines;
use crate::notes::{MOST_NOTES, note_words, notes_of};
use crate::repairs::repair_lines;
use crate::summary::{Summary, summary_of};
use std::alloc::{AllocError, Global};
use vk_fact_words::{
    cause_lines, either_way_line, fact_line, finding_line, links_line, points_named,
};
use vk_findings::Report;
use vk_hazards::{Fact, Links};
use vk_mistakes::place_of;
use vk_model::{At, Entry, Rule};
use vk_trace::Outcome;
use vk_words::{point_words, push_count, sentence};

/// The lines on a refused trace: the verdict, the point in words, what the rule says, the fact that is
/// reported of it, what the rule finds there, and a repair.
pub fn refusal_text(
    alloc: Global,
    input: &[u8],
    trace: &[Entry],
    report: &Report<'_>,
) -> Result<String, AllocError>
    requires fault { first_fault trace.now ≡ Some (report.now.at, report.now.rule) }
    requires so { IsReport trace.now report.now }
    ensures { IfOk result (λ text. IsRefusalText trace.now report.now.at report.now.rule (string_bytes text)) }
{
    let mut text = vk_trace::text(alloc, &Outcome::Refused(report.at, report.rule))?;
    let point = point_line(alloc, input, trace, report.at)?;
    text.push_str(point.as_str())?;
    let ruled = ruled_lines(alloc, report.rule, &report.fact, &report.links)?;
    text.push_str(ruled.as_str())?;
    let points = point_lines(alloc, input, trace, &report.fact)?;
    text.push_str(points.as_str())?;
    let more = more_lines(alloc, trace, report)?;
    text.push_str(more.as_str())?;
    Ok(text)
}

/// The lines on a rule, on a fact and on its links.
fn ruled_lines(
    alloc: Global,
    rule: Rule,
    fact: &Option<Fact<'_>>,
    links: &Option<Links<'_>>,
) -> Result<String, AllocError>
    ensures { IfOk result (λ lines. string_bytes lines ≡ rule_line rule ++ (text_of_fact fact.now ++ text_of_links links.now)) }
{
    let mut lines = line_of_rule(alloc, rule)?;
    let reported = reported_lines(alloc, fact, links)?;
    lines.push_str(reported.as_str())?;
    Ok(lines)
}

/// The lines on a fact and on its links.
fn reported_lines(
    alloc: Global,
    fact: &Option<Fact<'_>>,
    links: &Option<Links<'_>>,
) -> Result<String, AllocError>
    ensures { IfOk result (λ lines. string_bytes lines ≡ text_of_fact fact.now ++ text_of_links links.now) }
{
    let mut lines = fact_line(alloc, fact)?;
    let linked = links_line(alloc, links)?;
    lines.push_str(linked.as_str())?;
    Ok(lines)
}

/// The lines on what Vulkan says, on what the rule finds, on a cause and on a repair, and the notes.
fn more_lines(alloc: Global, trace: &[Entry], report: &Report<'_>) -> Result<String, AllocError>
    requires { first_fault trace.now ≡ Some (report.now.at, report.now.rule) }
{
    let mut lines = identifier_lines(alloc, trace, report.at, report.rule)?;
    let found = finding_line(alloc, &report.finding)?;
    lines.push_str(found.as_str())?;
    let causes = cause_lines(alloc, trace, &report.cause)?;
    lines.push_str(causes.as_str())?;
    let repair = repair_lines(alloc, trace, report.at, report.rule)?;
    lines.push_str(repair.as_str())?;
    let notes = note_lines(alloc, trace)?;
    lines.push_str(notes.as_str())?;
    Ok(lines)
}

/// The line with the point in words, and where it is in the input.
fn point_line(alloc: Global, input: &[u8], trace: &[Entry], at: At) -> Result<String, AllocError>
    ensures { IfOk result (λ line. BeginsWith (kind_text at ++ at_text at) (string_bytes line)) }
{
    let mut line = point_words(alloc, trace, at)?;
    let place = place_words(alloc, input, at)?;
    line.push_str(place.as_str())?;
    Ok(line)
}

/// The points that a fact names, each on a line: in words, and where it is in the input; and of a hazard
/// what the common byte may be.
fn point_lines(
    alloc: Global,
    input: &[u8],
    trace: &[Entry],
    fact: &Option<Fact<'_>>,
) -> Result<String, AllocError> {
    let mut lines = String::new(alloc);
    for at in &points_named(alloc, fact)? {
        lines.push_str("    ")?;
        let words = point_words(alloc, trace, *at)?;
        lines.push_str(words.as_str())?;
        let place = place_words(alloc, input, *at)?;
        lines.push_str(place.as_str())?;
    }
    let either_way = either_way_line(alloc, fact)?;
    lines.push_str(either_way.as_str())?;
    Ok(lines)
}

/// Where the point is in the input, and the end of the line.
fn place_words(alloc: Global, input: &[u8], at: At) -> Result<String, AllocError> {
    match place_of(input, at) {
        Some(place) => {
            let line = place.line;
            let column = place.column;
            format!(in alloc; " (line {line}, column {column})\n")
        }
        None => String::from_str(alloc, "\n"),
    }
}

/// The line with what the rule says.
fn line_of_rule(alloc: Global, rule: Rule) -> Result<String, AllocError>
    ensures { IfOk result (λ line. string_bytes line ≡ rule_line rule) }
{
    let mut line = String::from_str(alloc, "  ")?;
    line.push_str(rule.name())?;
    line.push_str(": ")?;
    line.push_str(sentence(rule))?;
    line.push_str("\n")?;
    Ok(line)
}

/// The lines on an accepted trace: the verdict, and what the trace has.
pub fn acceptance_text(alloc: Global, trace: &[Entry]) -> Result<String, AllocError>
    ensures { IfOk result (λ text. IsAcceptanceText (string_bytes text)) }
{
    let mut text = String::from_str(alloc, "accepted\n")?;
    let summary = summary_of(alloc, trace)?;
    let lines = summary_lines(alloc, &summary)?;
    text.push_str(lines.as_str())?;
    let notes = note_lines(alloc, trace)?;
    text.push_str(notes.as_str())?;
    Ok(text)
}

/// A line for each note on the trace.
fn note_lines(alloc: Global, trace: &[Entry]) -> Result<String, AllocError> {
    let mut lines = String::new(alloc);
    let notes = notes_of(alloc, trace)?;
    for note in &notes {
        lines.push_str("note: ")?;
        let words = note_words(alloc, *note)?;
        lines.push_str(words.as_str())?;
        lines.push_str("\n")?;
    }
    if notes.len() >= MOST_NOTES {
        lines.push_str("note: there may be more to note\n")?;
    }
    Ok(lines)
}

/// What a trace has, in lines.
fn summary_lines(alloc: Global, summary: &Summary) -> Result<String, AllocError> {
    let mut lines = String::new(alloc);
    let entries = summary.entries as u64;
    push_count(&mut lines, "", entries, "entry", "entries")?;
    let points = summary.points as u64;
    push_count(&mut lines, ", ", points, "point", "points")?;
    push_made(&mut lines, summary)?;
    if summary.passes > 0 {
        let passes = summary.passes as u64;
        push_count(&mut lines, "\nbegins ", passes, "pass", "passes")?;
    }
    for (queue, submitted) in summary.queues.iter().enumerate() {
        if submitted.batches > 0 {
            write!(lines, "\nqueue {queue}")?;
            let batches = submitted.batches as u64;
            push_count(&mut lines, ": ", batches, "batch", "batches")?;
            let commands = submitted.commands as u64;
            push_count(&mut lines, ", ", commands, "command", "commands")?;
        }
    }
    let bytes = summary.read_bytes;
    push_count(&mut lines, "\nthe host reads ", bytes, "byte", "bytes")?;
    lines.push_str("\n")?;
    Ok(lines)
}

/// How many objects of each kind are made.
fn push_made(lines: &mut String, summary: &Summary) -> Result<(), AllocError> {
    let begun = push_objects(lines, false, summary.buffers, "buffer", "buffers")?;
    let begun = push_objects(lines, begun, summary.images, "image", "images")?;
    let objects = summary.memory_objects;
    let begun = push_objects(lines, begun, objects, "memory object", "memory objects")?;
    let begun = push_objects(lines, begun, summary.pools, "pool", "pools")?;
    let begun = push_objects(lines, begun, summary.semaphores, "semaphore", "semaphores")?;
    let begun = push_objects(lines, begun, summary.events, "event", "events")?;
    let count = summary.defragmentations;
    push_objects(lines, begun, count, "defragmentation", "defragmentations")?;
    Ok(())
}

/// How many objects of a kind are made, where there are some, and whether there were some so far.
fn push_objects(
    lines: &mut String,
    begun: bool,
    count: usize,
    one: &str,
    several: &str,
) -> Result<bool, AllocError> {
    if count == 0 {
        return Ok(begun);
    }
    let before = if begun { ", " } else { "\nmakes " };
    push_count(lines, before, count as u64, one, several)?;
    Ok(true)
}
