ghost use Rattle.std.specs.Prelude.{◌≡◌, IfOk, List, codes, string_bytes};
ghost use Rattle.vk_words.specs.Points.{BeginsWith};
ghost use Rattle.vk_model.specs.declared.entry.Entry.{Entry};
ghost use Rattle.vk_trace.specs.Trace.{IsTrace};
ghost use Rattle.vk_explain.specs.Explained.{Explains, IsMistakeText};

use crate::explaining::{Explanation, Judgment};
use crate::forms::Form;
use std::alloc::{AllocError, Global};
use vk_fact_words::push_quoted;
use vk_mistakes::{
    InputPlace, Mistake, MistakePlace, line_and_column, mistake_of, place_of_member,
};

/// What is said of an input that is no trace.
pub fn no_trace(alloc: Global, input: &[u8], form: Form) -> Result<Explanation, AllocError>
    requires { (t : List Entry) → IsTrace input.now t → ⊥ }
    ensures { IfOk result (λ e. Explains form input.now (string_bytes e.text) e.judgment) }
{
    let text = mistake_text(alloc, input, form)?;
    Ok(Explanation {
        judgment: Judgment::NoTrace,
        text,
    })
}

/// The verdict, and what keeps an input from being a trace.
fn mistake_text(alloc: Global, input: &[u8], form: Form) -> Result<String, AllocError>
    ensures { IfOk result (λ text. IsMistakeText form (string_bytes text)) }
{
    match form {
        Form::Text => mistake_lines(alloc, input),
        Form::Json => mistake_json(alloc, input),
    }
}

/// The same as lines.
fn mistake_lines(alloc: Global, input: &[u8]) -> Result<String, AllocError>
    ensures { IfOk result (λ text. BeginsWith (codes "no trace\n") (string_bytes text)) }
{
    let mut text = String::from_str(alloc, "no trace\n")?;
    let found = mistake_of(alloc, input)?;
    let line = mistake_line(alloc, input, &found)?;
    text.push_str(line.as_str())?;
    Ok(text)
}

/// The same as an object of JSON.
fn mistake_json(alloc: Global, input: &[u8]) -> Result<String, AllocError>
    ensures { IfOk result (λ text. BeginsWith (codes "{\"verdict\":\"no trace\"") (string_bytes text)) }
{
    let mut text = String::from_str(alloc, "{\"verdict\":\"no trace\"")?;
    let found = mistake_of(alloc, input)?;
    let members = mistake_members(alloc, input, &found)?;
    text.push_str(members.as_str())?;
    Ok(text)
}

/// The line on what keeps an input from being a trace.
fn mistake_line(
    alloc: Global,
    input: &[u8],
    found: &Option<Mistake>,
) -> Result<String, AllocError> {
    let mut line = String::new(alloc);
    let Some(mistake) = found else {
        return Ok(line);
    };
    line.push_str("The input isn't a valid trace: ")?;
    if let Some(place) = place_of_mistake(alloc, input, &mistake.place)? {
        let InputPlace { line: at, column } = place;
        write!(line, "line {at}, column {column}")?;
    }
    if let MistakePlace::Member(path) = &mistake.place {
        line.push_str(" (member ")?;
        push_path(&mut line, path.as_slice())?;
        if let Some(name) = mistake.name {
            write!(line, ", {name}")?;
        }
        line.push_str(")")?;
    }
    let expected = mistake.expected;
    let there = mistake.found.as_str();
    write!(line, ": expected {expected}; found {there}\n")?;
    if let Some(form) = &mistake.form {
        let form = form.as_str();
        write!(line, "  the form is {form}\n")?;
    }
    Ok(line)
}

/// The members on what keeps an input from being a trace, and the end of the object.
fn mistake_members(
    alloc: Global,
    input: &[u8],
    found: &Option<Mistake>,
) -> Result<String, AllocError> {
    let mut members = String::new(alloc);
    if let Some(mistake) = found {
        if let Some(place) = place_of_mistake(alloc, input, &mistake.place)? {
            let InputPlace { line, column } = place;
            write!(members, ",\"line\":{line},\"column\":{column}")?;
        }
        if let MistakePlace::Member(path) = &mistake.place {
            members.push_str(",\"member\":\"")?;
            push_path(&mut members, path.as_slice())?;
            members.push_str("\"")?;
        }
        if let Some(name) = mistake.name {
            write!(members, ",\"name\":\"{name}\"")?;
        }
        if let Some(form) = &mistake.form {
            members.push_str(",\"form\":")?;
            let form = String::from_str(alloc, form.as_str())?;
            push_quoted(alloc, &mut members, form)?;
        }
        members.push_str(",\"expected\":")?;
        let expected = String::from_str(alloc, mistake.expected)?;
        push_quoted(alloc, &mut members, expected)?;
        members.push_str(",\"found\":")?;
        let there = String::from_str(alloc, mistake.found.as_str())?;
        push_quoted(alloc, &mut members, there)?;
    }
    members.push_str("}\n")?;
    Ok(members)
}

/// Where it is in the input.
fn place_of_mistake(
    alloc: Global,
    input: &[u8],
    place: &MistakePlace,
) -> Result<Option<InputPlace>, AllocError> {
    match place {
        MistakePlace::Byte(index) => Ok(Some(line_and_column(input, *index))),
        MistakePlace::Line { line, column } => Ok(Some(InputPlace {
            line: *line,
            column: *column,
        })),
        MistakePlace::Member(path) => place_of_member(alloc, input, path.as_slice()),
    }
}

/// A path as a JSON pointer.
fn push_path(out: &mut String, path: &[usize]) -> Result<(), AllocError> {
    if path.is_empty() {
        return out.push_str("/");
    }
    for number in path {
        let member = *number;
        write!(out, "/{member}")?;
    }
    Ok(())
}
