ghost use Rattle.std.specs.Prelude.{◌≡◌, ◌++◌, IfOk, OnOk, string_bytes, [], ◌∷◌};
ghost use Rattle.std.specs.List.{flat_map};
ghost use Rattle.vk_queues.specs.PointViews.{batch_of};
ghost use Rattle.vk_row_text.specs.Rows as spec;
ghost use Rattle.vk_row_text.specs.Texts.{batch_line, batch_lines, command_line, command_lines, submit_line};
ghost use Rattle.vk_row_text.specs.Words.{call_words};
ghost use Rattle.vk_row_text.specs.declared.names.RowName.TheVariants.{InBatch};

use crate::commands::command_row;
use crate::names::{BatchName, RowName};
use crate::texts::{push_call, push_row};
use crate::words::{Call, Word};
use std::alloc::{AllocError, Global};
use vk_model::{At, Cmd, SemaphoreSubmit};
use vk_queues::Submitted;
use vk_words::{push_at, push_number};

/// Adds the lines of a batch: its waits, its commands, its signals.
pub fn push_batch(alloc: Global, out: &mut String, batch: &Submitted<'_>) -> Result<(), AllocError>
    ensures { OnOk result (string_bytes out.new ≡ string_bytes out.old ++ batch_lines (batch_of batch.now)) }
{
    let content = batch.content;
    push_beginning(alloc, out, batch.entry, batch.batch, batch.queue)?;
    push_submits(alloc, out, BatchName::BatchWait, content.waits.as_slice())?;
    push_commands(
        alloc,
        out,
        batch.entry,
        batch.batch,
        content.commands.as_slice(),
    )?;
    push_submits(
        alloc,
        out,
        BatchName::BatchSignal,
        content.signals.as_slice(),
    )?;
    out.push_str("    END_BATCH\n")?;
    Ok(())
}

/// Adds the line with which a batch begins.
fn push_beginning(
    alloc: Global,
    out: &mut String,
    entry: usize,
    batch: usize,
    queue: u32,
) -> Result<(), AllocError>
    ensures { OnOk result (string_bytes out.new ≡ string_bytes out.old ++ batch_line entry batch queue) }
{
    let words = [
        Word::Number(entry as u64),
        Word::Number(batch as u64),
        Word::Number(queue as u64),
    ];
    let words = Vec::from_array(alloc, words)?;
    let call = call_of(BatchName::Batch, words);
    out.push_str("    /* ")?;
    push_number(out, entry)?;
    out.push_str(".")?;
    push_number(out, batch)?;
    out.push_str(" */ ")?;
    push_call(out, &call)?;
    out.push_str("\n")
}

/// A row of a batch without items.
fn call_of(name: BatchName, words: Vec<Word>) -> Call
    ensures { call_words result ≡ (InBatch name, words.items) }
{
    Call {
        name: RowName::InBatch(name),
        words,
    }
}

/// Adds the lines of waits or of signals.
fn push_submits(
    alloc: Global,
    out: &mut String,
    name: BatchName,
    submits: &[SemaphoreSubmit],
) -> Result<(), AllocError>
    ensures { OnOk result (string_bytes out.new ≡ string_bytes out.old ++ flat_map (submit_line name) submits.now) }
{
    for submit in submits {
        push_submit(alloc, out, name, submit)?;
    }
    Ok(())
}

/// Adds the line of a wait or of a signal.
fn push_submit(
    alloc: Global,
    out: &mut String,
    name: BatchName,
    submit: &SemaphoreSubmit,
) -> Result<(), AllocError>
    ensures { OnOk result (string_bytes out.new ≡ string_bytes out.old ++ submit_line name submit.now) }
{
    let words = [
        Word::Number(submit.semaphore as u64),
        Word::Number(submit.value),
        Word::Stages(submit.stages),
    ];
    let words = Vec::from_array(alloc, words)?;
    let call = call_of(name, words);
    out.push_str("        ")?;
    push_call(out, &call)?;
    out.push_str("\n")
}

/// Adds the lines of the commands of a batch.
fn push_commands(
    alloc: Global,
    out: &mut String,
    entry: usize,
    batch: usize,
    commands: &[Cmd],
) -> Result<(), AllocError>
    ensures { OnOk result (string_bytes out.new ≡ string_bytes out.old ++ command_lines entry batch 0 commands.now) }
{
    for (place, command) in commands.iter().enumerate() {
        push_command(alloc, out, entry, batch, place, command)?;
    }
    Ok(())
}

/// Adds the lines of a command, behind its point.
fn push_command(
    alloc: Global,
    out: &mut String,
    entry: usize,
    batch: usize,
    place: usize,
    command: &Cmd,
) -> Result<(), AllocError>
    ensures { OnOk result (string_bytes out.new ≡ string_bytes out.old ++ command_line entry batch place command.now) }
{
    let row = command_row(alloc, command)?;
    out.push_str("        /* ")?;
    push_at(out, At::Command(entry, batch, place))?;
    out.push_str(" */ ")?;
    push_row(out, &row)?;
    out.push_str("\n")
}
