ghost use Rattle.std.specs.Prelude.{◌≡◌, ◌++◌, OnOk, string_bytes, [], option_map};
ghost use Rattle.std.specs.List.{flat_map};
ghost use Rattle.vk_queues.specs.PointViews.{batch_of};
ghost use Rattle.vk_row_text.specs.Steps as spec;
ghost use Rattle.vk_row_text.specs.Steps.{byte_line};

use crate::steps::Step;
use std::alloc::AllocError;
use vk_model::{At, Cmd, Entry, Sequence};
use vk_queues::Submitted;
use vk_words::{push_at, push_digits};

/// Adds the bytes of writes, of updates and of reads, in the order of their rows: a text of hex for each,
/// and 0 for a read of which nothing is promised. What is promised are the bytes of reads, in their
/// order, with the numbers of their entries.
pub fn push_bytes(
    out: &mut String,
    steps: &[Step<'_>],
    promised: &[(usize, Sequence<u8>)],
) -> Result<(), AllocError>
    ensures { OnOk result (string_bytes out.new
        ≡ string_bytes out.old ++ flat_map byte_line (spec.step_bytes promised.entry.now steps.now)) }
{
    let mut promised = promised;
    for step in steps {
        push_of_step(out, step, promised)?;
        promised = left_of_step(step, promised);
    }
    Ok(())
}

/// Adds the bytes of a step.
fn push_of_step(
    out: &mut String,
    step: &Step<'_>,
    promised: &[(usize, Sequence<u8>)],
) -> Result<(), AllocError>
    ensures { OnOk result (string_bytes out.new
        ≡ string_bytes out.old ++ flat_map byte_line (spec.bytes_of_step promised.now step.now)) }
{
    match step {
        Step::Entry(number, entry) => push_of_entry(out, *number, *entry, promised),
        Step::Batch(batch) => push_of_batch(out, batch),
    }
}

/// Adds the bytes of an entry.
fn push_of_entry(
    out: &mut String,
    number: usize,
    entry: &Entry,
    promised: &[(usize, Sequence<u8>)],
) -> Result<(), AllocError>
    ensures { OnOk result (string_bytes out.new
        ≡ string_bytes out.old ++ flat_map byte_line (spec.entry_bytes promised.now number entry.now)) }
{
    match entry {
        Entry::Write { bytes, .. } => push_line(out, At::Entry(number), Some(bytes.as_slice())),
        Entry::Read { .. } => push_line(out, At::Entry(number), next_bytes(number, promised)),
        _ => Ok(()),
    }
}

/// The bytes that are promised of a read.
fn next_bytes(number: usize, promised: &[(usize, Sequence<u8>)]) -> Option<&[u8]>
    ensures { option_map (λ s. s.now) result ≡ spec.next_bytes number promised.now }
{
    let (next, _) = promised.split_first()?;
    if next.0 == number {
        Some(next.1.as_slice())
    } else {
        None
    }
}

/// What is promised of the reads behind a step.
fn left_of_step<'a>(
    step: &Step<'_>,
    promised: &'a [(usize, Sequence<u8>)],
) -> &'a [(usize, Sequence<u8>)]
    ensures { result.now ≡ spec.left_of_step promised.now step.now }
{
    match step {
        Step::Entry(number, entry) => left_after(*number, *entry, promised),
        Step::Batch(_) => promised,
    }
}

/// What is promised of the reads behind an entry.
fn left_after<'a>(
    number: usize,
    entry: &Entry,
    promised: &'a [(usize, Sequence<u8>)],
) -> &'a [(usize, Sequence<u8>)]
    ensures { result.now ≡ spec.left_after promised.now number entry.now }
{
    match entry {
        Entry::Read { .. } => promised_after(number, promised),
        _ => promised,
    }
}

/// What is promised of the reads behind one.
fn promised_after(number: usize, promised: &[(usize, Sequence<u8>)]) -> &[(usize, Sequence<u8>)]
    ensures { result.now ≡ spec.promised_after number promised.now }
{
    match promised.split_first() {
        Some((next, rest)) if next.0 == number => rest,
        _ => promised,
    }
}

/// Adds the bytes of the updates of a batch.
fn push_of_batch(out: &mut String, batch: &Submitted<'_>) -> Result<(), AllocError>
    ensures { OnOk result (string_bytes out.new
        ≡ string_bytes out.old ++ flat_map byte_line (spec.batch_bytes (batch_of batch.now))) }
{
    let commands = batch.content.commands.as_slice();
    push_of_commands(out, batch.entry, batch.batch, commands)
}

/// Adds the bytes of the updates among commands.
fn push_of_commands(
    out: &mut String,
    entry: usize,
    batch: usize,
    commands: &[Cmd],
) -> Result<(), AllocError>
    ensures { OnOk result (string_bytes out.new
        ≡ string_bytes out.old ++ flat_map byte_line (spec.commands_bytes entry batch 0 commands.now)) }
{
    for (place, command) in commands.iter().enumerate() {
        push_of_command(out, entry, batch, place, command)?;
    }
    Ok(())
}

/// Adds the bytes of a command, if it is an update.
fn push_of_command(
    out: &mut String,
    entry: usize,
    batch: usize,
    place: usize,
    command: &Cmd,
) -> Result<(), AllocError>
    ensures { OnOk result (string_bytes out.new
        ≡ string_bytes out.old ++ flat_map byte_line (spec.command_bytes entry batch place command.now)) }
{
    match command {
        Cmd::Update { bytes, .. } => {
            let at = At::Command(entry, batch, place);
            push_line(out, at, Some(bytes.as_slice()))
        }
        _ => Ok(()),
    }
}

/// Adds bytes as a text of hex, or that none are promised, behind their point.
fn push_line(out: &mut String, at: At, bytes: Option<&[u8]>) -> Result<(), AllocError>
    ensures { OnOk result (string_bytes out.new
        ≡ string_bytes out.old ++ byte_line (at, option_map (λ s. s.now) bytes.entry)) }
{
    out.push_str("    /* ")?;
    push_at(out, at)?;
    out.push_str(" */ ")?;
    push_hex(out, bytes)
}

/// Adds bytes as a text of hex, or that none are promised.
fn push_hex(out: &mut String, bytes: Option<&[u8]>) -> Result<(), AllocError>
    ensures { OnOk result (string_bytes out.new
        ≡ string_bytes out.old ++ spec.bytes_text (option_map (λ s. s.now) bytes.entry)) }
{
    match bytes {
        Some(bytes) => {
            out.push_str("\"")?;
            push_digits(out, bytes)?;
            out.push_str("\",\n")
        }
        None => out.push_str("0,\n"),
    }
}
