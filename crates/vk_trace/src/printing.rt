ghost use Rattle.std.specs.Prelude.{◌≡◌, ◌++◌, IfOk, OnOk, string_bytes};
ghost use Rattle.std.specs.List.{flat_map};
ghost use Rattle.vk_trace.specs.Text.{read_line, stop_line, lines_of};

use std::alloc::{AllocError, Global};
use vk_model::{At, Rule, Sequence};
use vk_words::{push_at, push_digits, push_number};

/// What there is to report of a trace. Entries are named by their place in the trace, from 0 on.
#[derive(Debug, Drop)]
pub enum Outcome {
    /// The bytes that each `read` gave, with its entry, in the order of the trace, and the entry that
    /// found no room, where the replay stopped at one.
    Reads(Sequence<(usize, Sequence<u8>)>, Option<usize>),
    /// The first point that breaks a rule, and the rule.
    Refused(At, Rule),
}

/// The text of an outcome: `5 01020304` for a read, `stopped 6 NO_ROOM`, or `refused 2.0.1 STAGE`,
/// each a line.
pub fn text(alloc: Global, outcome: &Outcome) -> Result<String, AllocError>
    ensures { IfOk result (λ s. string_bytes s ≡ lines_of outcome.now) }
{
    let mut out = String::new(alloc);
    match outcome {
        Outcome::Reads(reads, stop) => {
            push_reads(&mut out, reads.as_slice())?;
            push_stop(&mut out, *stop)?;
        }
        Outcome::Refused(at, rule) => push_refusal(&mut out, *at, *rule)?,
    }
    Ok(out)
}

fn push_reads(out: &mut String, reads: &[(usize, Sequence<u8>)]) -> Result<(), AllocError>
    ensures { OnOk result (string_bytes out.new ≡ string_bytes out.old ++ flat_map read_line reads.now) }
{
    for (entry, bytes) in reads {
        push_read(out, *entry, bytes.as_slice())?;
    }
    Ok(())
}

fn push_read(out: &mut String, entry: usize, bytes: &[u8]) -> Result<(), AllocError>
    ensures { OnOk result (string_bytes out.new ≡ string_bytes out.old ++ read_line (entry, bytes.now)) }
{
    push_number(out, entry)?;
    out.push_str(" ")?;
    push_digits(out, bytes)?;
    out.push_str("\n")
}

fn push_stop(out: &mut String, stop: Option<usize>) -> Result<(), AllocError>
    ensures { OnOk result (string_bytes out.new ≡ string_bytes out.old ++ stop_line stop) }
{
    if let Some(entry) = stop {
        out.push_str("stopped ")?;
        push_number(out, entry)?;
        out.push_str(" NO_ROOM\n")?;
    }
    Ok(())
}

fn push_refusal(out: &mut String, at: At, rule: Rule) -> Result<(), AllocError>
    ensures { OnOk result (string_bytes out.new ≡ string_bytes out.old ++ lines_of (Outcome.Refused at rule)) }
{
    out.push_str("refused ")?;
    push_at(out, at)?;
    out.push_str(" ")?;
    out.push_str(rule.name())?;
    out.push_str("\n")
}
