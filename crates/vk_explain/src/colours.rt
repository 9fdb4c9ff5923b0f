ghost use Rattle.std.specs.Prelude.{◌≡◌, ◌≤◌, ◌<◌, ◌+◌, ◌++◌, IfOk, OnOk, length};
ghost use Rattle.vk_explain.specs.Colours as spec;
ghost use Rattle.vk_explain.specs.Colours.{styled, IsColoured};
ghost use Rattle.vk_explain.specs.Inner.Coloured.{IsAdded};

use std::alloc::{AllocError, Global};

/// What words on a terminal are, by which they are coloured.
#[derive(Clone, Copy, Debug, PartialEq, Eq)]
pub enum Style {
    /// Words without a colour.
    Plain,
    /// The verdict that a trace is accepted.
    Accepted,
    /// Another verdict.
    Refused,
    /// The name of a rule.
    RuleName,
    /// That a repair follows.
    Repair,
    /// That a note follows.
    Note,
}

/// Words of a line that are coloured: after so many bytes, so many.
#[derive(Clone, Copy)]
struct Mark {
    style: Style,
    before: usize,
    count: usize,
}

/// An explanation with its verdict, the names of rules and the words `repair` and `note` in colours of a
/// terminal.
pub fn coloured(alloc: Global, text: &[u8]) -> Result<Vec<u8>, AllocError>
    ensures { IfOk result (λ shown. IsColoured text.now shown.items) }
{
    let mut shown = Vec::new(alloc);
    let mut rest = text;
    while !rest.is_empty() {
        let (line, after) = rest.split_at(line_end(rest));
        push_line(&mut shown, line)?;
        rest = after;
    }
    Ok(shown)
}

/// How many bytes the first line of a text has, with its end.
fn line_end(text: &[u8]) -> usize
    requires { 0 < length text.now }
    ensures some { 0 < result }
    ensures within { result ≤ length text.now }
{
    for (index, byte) in text.iter().enumerate() {
        if *byte == b'\n' {
            return index + 1;
        }
    }
    text.len()
}

/// Adds a line with its words in colours.
fn push_line(out: &mut Vec<u8>, line: &[u8]) -> Result<(), AllocError>
    ensures { OnOk result (IsAdded out.old.items line.now out.new.items) }
{
    let mark = mark_of(line);
    let (front, rest) = line.split_at(mark.before);
    let (words, back) = rest.split_at(mark.count);
    push_styled(out, Style::Plain, front)?;
    push_styled(out, mark.style, words)?;
    push_styled(out, Style::Plain, back)?;
    Ok(())
}

/// Adds words of a style.
fn push_styled(out: &mut Vec<u8>, style: Style, words: &[u8]) -> Result<(), AllocError>
    ensures { OnOk result (out.new.items ≡ out.old.items ++ styled style words.now) }
{
    out.extend_from_slice(beginning(style))?;
    out.extend_from_slice(words)?;
    out.extend_from_slice(end(style))?;
    Ok(())
}

/// The escape before words of a style.
fn beginning(style: Style) -> &'static [u8]
    ensures { result.now ≡ spec.beginning style }
{
    match style {
        Style::Plain => b"",
        Style::Accepted => b"\x1b[1;32m",
        Style::Refused => b"\x1b[1;31m",
        Style::RuleName => b"\x1b[1m",
        Style::Repair => b"\x1b[36m",
        Style::Note => b"\x1b[33m",
    }
}

/// The escape after them.
fn end(style: Style) -> &'static [u8]
    ensures { result.now ≡ spec.end style }
{
    match style {
        Style::Plain => b"",
        _ => b"\x1b[0m",
    }
}

/// The words of a line that are coloured.
fn mark_of(line: &[u8]) -> Mark
    ensures { result.before + result.count ≤ length line.now }
{
    if line.starts_with(b"accepted") {
        return marked(Style::Accepted, 0, 8);
    }
    if line.starts_with(b"refused") {
        return marked(Style::Refused, 0, 7);
    }
    if line.starts_with(b"no trace") {
        return marked(Style::Refused, 0, 8);
    }
    if line.starts_with(b"note:") {
        return marked(Style::Note, 0, 5);
    }
    if line.starts_with(b"  repair") {
        return marked(Style::Repair, 2, 6);
    }
    if line.starts_with(b"  weaker repair") {
        return marked(Style::Repair, 2, 13);
    }
    rule_mark(line)
}

/// The same of a line that may begin with the name of a rule.
fn rule_mark(line: &[u8]) -> Mark
    ensures { result.before + result.count ≤ length line.now }
{
    let Some(rest) = line.strip_prefix(b"  ".as_slice()) else {
        return marked(Style::Plain, 0, 0);
    };
    let count = name_length(rest);
    if rest.get(count) == Some(&b':') {
        marked(Style::RuleName, 2, count)
    } else {
        marked(Style::Plain, 0, 0)
    }
}

/// How many capital letters and `_` come first.
fn name_length(text: &[u8]) -> usize
    ensures { result ≤ length text.now }
{
    for (index, byte) in text.iter().enumerate() {
        if !byte.is_ascii_uppercase() && *byte != b'_' {
            return index;
        }
    }
    text.len()
}

fn marked(style: Style, before: usize, count: usize) -> Mark
    ensures { result ≡ record { style = style; before = before; count = count } }
{
    Mark {
        style,
        before,
        count,
    }
}
