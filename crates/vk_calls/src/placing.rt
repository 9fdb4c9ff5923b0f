ghost use Rattle.std.specs.Prelude.{◌≡◌, ◌++◌, IfOk, OnOk, option_map, string_bytes};
ghost use Rattle.vk_words.specs.Points.{at_text};
ghost use Rattle.vk_calls.specs.Calls.{call_in, data_of, said};
ghost use Rattle.vk_calls.specs.CalledText.{IsCalled, call_text, why_text};
ghost use Rattle.vk_calls.specs.Inner.Adding.{IsAdded, call_unless};

use crate::calls::{Call, Calls};
use crate::names::first_named;
use crate::parts::{Parts, parts_of_lines};
use std::alloc::{AllocError, Global};
use vk_model::At;
use vk_words::{push_at, push_number};

/// An explanation in lines, with the call of each point behind its name, where it is named first. The
/// line of the verdict stays as it is, and so does a repair, whose points are those of another trace.
pub fn with_calls(alloc: Global, calls: &Calls, text: &[u8]) -> Result<Vec<u8>, AllocError>
    ensures { IfOk result (λ shown. IsCalled (data_of calls.now) text.now shown.items) }
{
    let Parts {
        verdict,
        said,
        repair,
        notes,
    } = parts_of_lines(text);
    let mut shown = verdict.to_vec(alloc)?;
    let mut called = Vec::new(alloc);
    push_called(alloc, &mut shown, calls, &mut called, said)?;
    shown.extend_from_slice(repair)?;
    push_called(alloc, &mut shown, calls, &mut called, notes)?;
    Ok(shown)
}

/// Adds a part of a text, with the calls of the points that it names. Those of some points were said before.
fn push_called(
    alloc: Global,
    out: &mut Vec<u8>,
    calls: &Calls,
    called: &mut Vec<At>,
    text: &[u8],
) -> Result<(), AllocError>
    ensures { OnOk result (IsAdded (data_of calls.now) out.old.items text.now out.new.items) }
{
    let mut rest = text;
    while let Some(named) = first_named(alloc, rest)? {
        push_named(alloc, out, calls, called, named.front, named.at)?;
        rest = named.after;
    }
    out.extend_from_slice(rest)?;
    Ok(())
}

/// Adds a text up to a point that it names, with the name of the point, and its call, unless it was said.
fn push_named(
    alloc: Global,
    out: &mut Vec<u8>,
    calls: &Calls,
    called: &mut Vec<At>,
    front: &[u8],
    at: At,
) -> Result<(), AllocError>
    ensures { OnOk result (IsAdded (data_of calls.now) out.old.items
        (front.now ++ at_text at) out.new.items) }
{
    out.extend_from_slice(front)?;
    let is_said = called.contains(&at);
    if !is_said {
        called.push(at)?;
    }
    let name = name_text(alloc, calls, at, is_said)?;
    out.extend_from_slice(name.as_bytes())?;
    Ok(())
}

/// The name of a point, and its call, unless it was said.
fn name_text(alloc: Global, calls: &Calls, at: At, is_said: bool) -> Result<String, AllocError>
    ensures { IfOk result (λ text. string_bytes text
        ≡ at_text at ++ call_unless is_said (call_in (data_of calls.now) at)) }
{
    let mut text = String::new(alloc);
    push_at(&mut text, at)?;
    if !is_said {
        push_call(&mut text, &calls.call_of(at))?;
    }
    Ok(text)
}

/// Adds a call, where there is one.
fn push_call(out: &mut String, call: &Option<Call<'_>>) -> Result<(), AllocError>
    ensures { OnOk result (string_bytes out.new ≡ string_bytes out.old ++ call_text (option_map said call.now)) }
{
    let Some(Call { number, name, why }) = call else {
        return Ok(());
    };
    out.push_str(" (call ")?;
    push_number(out, *number as usize)?;
    out.push_str(" ")?;
    out.push_str(*name)?;
    push_why(out, *why)?;
    out.push_str(")")
}

/// Adds what a point stands for beyond its call.
fn push_why(out: &mut String, why: Option<&str>) -> Result<(), AllocError>
    ensures { OnOk result (string_bytes out.new
        ≡ string_bytes out.old ++ why_text (option_map (λ s. s.now) why.entry)) }
{
    match why {
        Some(why) => {
            out.push_str(": ")?;
            out.push_str(why)
        }
        None => Ok(()),
    }
}
