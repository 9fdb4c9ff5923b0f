ghost use Rattle.std.specs.Prelude.{◌≡◌, ◌++◌, IfOk, OnOk, string_bytes, decimal};
ghost use Rattle.vk_words.specs.Points.{batch_item_text, at_text, kind_text, BeginsWith};

use crate::commands::{command_name, push_command, push_signal, push_wait};
use crate::entries::push_entry;
use itoa::Buffer;
use std::alloc::{AllocError, Global};
use vk_model::{At, Batch, Entry};

/// What a point of a trace is and does, with the trace's own values, as
/// `command 1.0.2 writes bytes 4 to 11 of buffer 1 (fill, queue 0)`. Of a point that the trace doesn't
/// have it says only how it is called.
///
/// # Errors
///
/// Where no memory is left.
pub fn point_words(alloc: Global, trace: &[Entry], at: At) -> Result<String, AllocError>
    ensures { IfOk result (λ words. BeginsWith (kind_text at ++ at_text at) (string_bytes words)) }
{
    let mut words = String::from_str(alloc, kind_name(at))?;
    push_at(&mut words, at)?;
    let action = action_words(alloc, trace, at)?;
    words.push_str(action.as_str())?;
    Ok(words)
}

/// What kind of point it is, as `command`, with a space after it.
pub fn kind_name(at: At) -> &'static str
    ensures { result.now ≡ kind_text at }
{
    match at {
        At::Entry(_) => "entry ",
        At::Command(_, _, _) => "command ",
        At::Wait(_, _, _) => "wait ",
        At::Signal(_, _, _) => "signal ",
    }
}

/// What a point does, with a space before it.
fn action_words(alloc: Global, trace: &[Entry], at: At) -> Result<String, AllocError> {
    let mut out = String::new(alloc);
    match at {
        At::Entry(e) => {
            if let Some(entry) = trace.get(e) {
                out.push_str(" ")?;
                push_entry(&mut out, entry, trace)?;
            }
        }
        At::Command(e, b, c) => {
            if let Some((queue, batch)) = batch_at(trace, e, b) {
                push_command_at(&mut out, queue, batch, c)?;
            }
        }
        At::Wait(e, b, k) => {
            if let Some((queue, batch)) = batch_at(trace, e, b) {
                push_wait_at(&mut out, queue, batch, k)?;
            }
        }
        At::Signal(e, b, k) => {
            if let Some((queue, batch)) = batch_at(trace, e, b) {
                push_signal_at(&mut out, queue, batch, k)?;
            }
        }
    }
    Ok(out)
}

/// A batch of a submit, with its queue.
fn batch_at(trace: &[Entry], entry: usize, batch: usize) -> Option<(u32, &Batch)> {
    match trace.get(entry)? {
        Entry::Submit { queue, batches } => {
            let batch = batches.as_slice().get(batch)?;
            Some((*queue, batch))
        }
        _ => None,
    }
}

fn push_command_at(
    out: &mut String,
    queue: u32,
    batch: &Batch,
    c: usize,
) -> Result<(), AllocError> {
    let Some(command) = batch.commands.as_slice().get(c) else {
        return Ok(());
    };
    out.push_str(" ")?;
    push_command(out, command)?;
    let name = command_name(command);
    write!(out, " ({name}, queue {queue})")
}

fn push_wait_at(out: &mut String, queue: u32, batch: &Batch, k: usize) -> Result<(), AllocError> {
    let Some(wait) = batch.waits.as_slice().get(k) else {
        return Ok(());
    };
    out.push_str(" ")?;
    push_wait(out, wait)?;
    write!(out, " (queue {queue})")
}

fn push_signal_at(out: &mut String, queue: u32, batch: &Batch, k: usize) -> Result<(), AllocError> {
    let Some(signal) = batch.signals.as_slice().get(k) else {
        return Ok(());
    };
    out.push_str(" ")?;
    push_signal(out, signal)?;
    write!(out, " (queue {queue})")
}

/// Adds a number in decimal.
///
/// # Errors
///
/// Where no memory is left.
pub fn push_number(out: &mut String, n: usize) -> Result<(), AllocError>
    ensures { OnOk result (string_bytes out.new ≡ string_bytes out.old ++ decimal n) }
{
    let mut buffer = Buffer::new();
    out.push_str(buffer.format(n))
}

fn push_batch_item(
    out: &mut String,
    e: usize,
    b: usize,
    mark: &str,
    k: usize,
) -> Result<(), AllocError>
    ensures { OnOk result (string_bytes out.new ≡ string_bytes out.old ++ batch_item_text e b mark.now k) }
{
    push_number(out, e)?;
    out.push_str(".")?;
    push_number(out, b)?;
    out.push_str(mark)?;
    push_number(out, k)
}

/// Adds how a point is called in answers, as `5`, `2.0.1`, `2.0.w0` or `2.0.s0`.
///
/// # Errors
///
/// Where no memory is left.
pub fn push_at(out: &mut String, at: At) -> Result<(), AllocError>
    ensures { OnOk result (string_bytes out.new ≡ string_bytes out.old ++ at_text at) }
{
    match at {
        At::Entry(e) => push_number(out, e),
        At::Command(e, b, c) => push_batch_item(out, e, b, ".", c),
        At::Wait(e, b, k) => push_batch_item(out, e, b, ".w", k),
        At::Signal(e, b, k) => push_batch_item(out, e, b, ".s", k),
    }
}
