ghost use Rattle.std.specs.Prelude.{◌≡◌, ◌++◌, IfOk, codes, drop, option_map};
ghost use Rattle.vk_explain.specs.Presented.{
  heading_of,
  AreCalled,
  AreLines,
  IsCalledObject,
  IsNamed,
  IsPresented,
};
ghost use Rattle.vk_explain.specs.declared.forms.Form.TheVariants.{Json, Text};
ghost use Rattle.vk_explain.specs.declared.forms.Wanted.TheVariants.{Explained};

use crate::colours::coloured;
use crate::forms::{Form, Wanted};
use std::alloc::{AllocError, Global};
use vk_calls::{Calls, with_calls, with_calls_member};
use vk_fact_words::push_quoted;

/// How what is said of an input is written beside what is said of others.
#[derive(Clone, Copy)]
pub struct Presentation<'a> {
    /// The name of the input, for a line above or a first member; none where it is the only one.
    pub name: Option<&'a str>,
    /// Whether nothing was written before.
    pub is_first: bool,
    /// Whether lines have colours of a terminal. Objects and traces have none.
    pub is_coloured: bool,
    /// The calls that its points stand for, if they are to be said. Traces have none.
    pub calls: Option<&'a Calls>,
}

/// What is asked of an input, with the calls of its points, with the name of the input and in colours.
pub fn presented(
    alloc: Global,
    text: &[u8],
    wanted: Wanted,
    presentation: &Presentation<'_>,
) -> Result<Vec<u8>, AllocError>
    ensures { IfOk result (λ shown. IsPresented wanted presentation.now text.now shown.items) }
{
    match wanted {
        Wanted::Explained(Form::Text) => with_heading(alloc, text, presentation),
        Wanted::Explained(Form::Json) | Wanted::ExplainedAndRepaired => {
            as_object(alloc, text, presentation)
        }
        Wanted::Repaired => text.to_vec(alloc),
    }
}

/// Lines below a heading.
fn with_heading(
    alloc: Global,
    text: &[u8],
    presentation: &Presentation<'_>,
) -> Result<Vec<u8>, AllocError>
    ensures { IfOk result (λ shown. IsPresented (Explained Text) presentation.now text.now shown.items) }
{
    let mut all = heading(alloc, presentation.name, presentation.is_first)?;
    let called = called_lines(alloc, text, presentation.calls)?;
    let lines = lines_of(alloc, &called, presentation.is_coloured)?;
    all.extend_from_slice(&lines)?;
    Ok(all)
}

/// Lines with the calls of points, where there are calls.
fn called_lines(alloc: Global, text: &[u8], calls: Option<&Calls>) -> Result<Vec<u8>, AllocError>
    ensures { IfOk result (λ called. AreCalled (option_map (λ c. c.now) calls.entry) text.now called.items) }
{
    match calls {
        Some(calls) => with_calls(alloc, calls, text),
        None => text.to_vec(alloc),
    }
}

/// An object with a name, and with the calls of points.
fn as_object(
    alloc: Global,
    text: &[u8],
    presentation: &Presentation<'_>,
) -> Result<Vec<u8>, AllocError>
    ensures { IfOk result (λ shown. IsPresented (Explained Json) presentation.now text.now shown.items) }
{
    let called = called_object(alloc, text, presentation.calls)?;
    with_name(alloc, &called, presentation.name)
}

/// An object with the calls of points, where there are calls.
fn called_object(alloc: Global, text: &[u8], calls: Option<&Calls>) -> Result<Vec<u8>, AllocError>
    ensures { IfOk result (λ called. IsCalledObject (option_map (λ c. c.now) calls.entry) text.now called.items) }
{
    match calls {
        Some(calls) => with_calls_member(alloc, calls, text),
        None => text.to_vec(alloc),
    }
}

/// The line with a name, below an empty line where something comes before.
fn heading(alloc: Global, name: Option<&str>, is_first: bool) -> Result<Vec<u8>, AllocError>
    ensures { IfOk result (λ line. line.items ≡ heading_of is_first (option_map (λ s. s.now) name.entry)) }
{
    let mut line = Vec::new(alloc);
    if let Some(name) = name {
        if !is_first {
            line.push(b'\n')?;
        }
        line.extend_from_slice(name.as_bytes())?;
        line.extend_from_slice(b":\n")?;
    }
    Ok(line)
}

/// Lines in colours, or as they are.
fn lines_of(alloc: Global, text: &[u8], is_coloured: bool) -> Result<Vec<u8>, AllocError>
    ensures { IfOk result (λ lines. AreLines is_coloured text.now lines.items) }
{
    if is_coloured {
        coloured(alloc, text)
    } else {
        text.to_vec(alloc)
    }
}

/// An object with a name as its first member.
fn with_name(alloc: Global, text: &[u8], name: Option<&str>) -> Result<Vec<u8>, AllocError>
    ensures { IfOk result (λ shown. IsNamed (option_map (λ s. s.now) name.entry) text.now shown.items) }
{
    match name {
        Some(name) => {
            let quoted = quoted(alloc, name)?;
            with_member(alloc, text, quoted.as_bytes())
        }
        None => text.to_vec(alloc),
    }
}

/// A name as a string of JSON.
fn quoted(alloc: Global, name: &str) -> Result<String, AllocError> {
    let mut quoted = String::new(alloc);
    push_quoted(alloc, &mut quoted, String::from_str(alloc, name)?)?;
    Ok(quoted)
}

/// An object with a value as its first member `file`.
fn with_member(alloc: Global, text: &[u8], value: &[u8]) -> Result<Vec<u8>, AllocError>
    ensures { IfOk result (λ shown. shown.items ≡ codes "{\"file\":" ++ (value.now ++ (codes "," ++ drop 1 text.now))) }
{
    let mut all = b"{\"file\":".to_vec(alloc)?;
    all.extend_from_slice(value)?;
    all.extend_from_slice(b",")?;
    all.extend_from_slice(without_first(text))?;
    Ok(all)
}

/// A text without its first byte.
fn without_first(text: &[u8]) -> &[u8]
    ensures { result.now ≡ drop 1 text.now }
{
    match text.split_first() {
        Some((_, rest)) => rest,
        None => text,
    }
}
