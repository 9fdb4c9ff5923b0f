ghost use Rattle.std.specs.Prelude.{◌≡◌, ◌↔◌, ◌⊎◌, ◌≤◌, ◌<◌, ◌+◌, ℕ, List, length, IfOk, IfErr, IfSome, IsTrue, false};
ghost use Rattle.std.specs.Io.KnownBytes.{Appends, Keeps};
ghost use Rattle.vk_model.specs.declared.entry.Entry.{Entry};
ghost use Rattle.vk_trace.specs.Trace.{IsTrace};
ghost use Rattle.vk_trace.specs.Watching.{counted};
ghost use Rattle.vk_trace.specs.Streams.{IsBeforeWriting, IsJudged};
ghost use Rattle.vk_emit.specs.Plans.{Emits, emitted_of, is_accepted, text_of};

use crate::planning::{Plan, plan_of};
use crate::texts::program_text;
use std::alloc::{AllocError, Global};
use std::io::{Read, Write};
use vk_model::{At, Config, Rule};
use vk_trace::{Outcome, ReadTraceError, RunError, Watched, read_all, read_trace, write_all};

/// What was written of a trace.
#[derive(Clone, Copy, Debug, PartialEq, Eq)]
pub enum Emitted {
    /// All of its entries.
    Whole,
    /// Those before this one, which finds no room.
    Stopped(usize),
    /// The trace breaks a rule: its first fault. Nothing is written, but where it is asked for.
    Refused(At, Rule),
}

/// What is asked for.
#[derive(Clone, Copy)]
pub struct Wanted<'a> {
    /// Whether a trace that breaks a rule is written too.
    pub refused: bool,
    /// The header that is written into the text; a line includes it where there is none.
    pub header: Option<&'a [u8]>,
}

/// What is written of an input.
#[derive(Drop)]
pub struct Program {
    /// What the text has.
    pub emitted: Emitted,
    /// The text in C.
    pub text: Vec<u8>,
}

/// Reads a trace to its end, and writes it as a program in C. Nothing is written before the whole text is
/// built. Nothing is flushed.
///
/// # Errors
///
/// Those of reading, of writing, `NotTrace` and `NoMemory`.
pub fn run<R: Read, W: Write>(
    alloc: Global,
    reader: &mut Watched<R>,
    writer: &mut Watched<W>,
    config: Config,
    wanted: Wanted<'_>,
) -> Result<Emitted, RunError>
    requires reads { reader.old.failed ≡ false }
    requires writes { writer.old.failed ≡ false }
    // The bytes that were read are a trace, and the text of a plan of it is written, by the answer to it,
    // and nothing else.
    ensures done { IfOk result (λ emitted. IfSome (R.remaining reader.old.inner) (λ input.
        (text : List ℕ) × Emits config input wanted.entry emitted text
        × Appends (W.contents writer.old.inner) (W.contents writer.new.inner) text)) }
    // There is no trace only where the bytes are none.
    ensures no_trace { result ≡ Err RunError.NotTrace
        → IfSome (R.remaining reader.old.inner) (λ input. (t : List Entry) → IsTrace input t → ⊥) }
    // Every error but that of a write has written nothing.
    ensures silent { IfErr result (λ e. IsBeforeWriting e
        → Keeps (W.contents writer.old.inner) (W.contents writer.new.inner)) }
    ensures read_fault { (result ≡ Err RunError.ReadFault) ↔ IsTrue reader.new.failed }
    ensures write_fault { (n : ℕ) → result ≡ Err (RunError.WriteFault n) → IsTrue writer.new.failed }
    ensures write_failed { IsTrue writer.new.failed → (n : ℕ) × (result ≡ Err (RunError.WriteFault n)) }
    // Only an input of so many bytes and reads is looked at.
    ensures within { IsJudged result → IfSome (R.remaining reader.old.inner) (λ input. length input ≤ 16777216) }
    ensures calls { reader.new.calls ≤ reader.old.calls + 1048576 }
    // Either there are more bytes than that, or so many reads came to no end.
    ensures too_long { result ≡ Err RunError.TooLong → (reader.new.calls ≡ counted reader.old.calls 1048576)
        ⊎ IfSome (R.remaining reader.old.inner) (λ input. 16777216 < length input) }
{
    let input = read_all(alloc, reader)?;
    match program_of(alloc, &input, config, wanted) {
        Ok(program) => {
            write_all(writer, program.text.as_slice())?;
            Ok(program.emitted)
        }
        Err(ReadTraceError::NotTrace) => Err(RunError::NotTrace),
        Err(ReadTraceError::NoMemory) => Err(RunError::NoMemory),
    }
}

/// What is written of the bytes of an input. `NotTrace` is answered only where the bytes are no trace.
pub fn program_of(
    alloc: Global,
    input: &[u8],
    config: Config,
    wanted: Wanted<'_>,
) -> Result<Program, ReadTraceError>
    ensures emitted { IfOk result (λ p. Emits config input.now wanted.entry p.emitted p.text.items) }
    ensures no_trace { result ≡ Err ReadTraceError.NotTrace → (t : List Entry) → IsTrace input.now t → ⊥ }
{
    let entries = read_trace(alloc, input)?;
    let plan = plan_of(alloc, &entries, config)?;
    let emitted = emitted_of(&plan.outcome);
    let text = text_of(alloc, &plan, wanted)?;
    Ok(Program { emitted, text })
}

/// What is written, by what is promised.
fn emitted_of(outcome: &Outcome) -> Emitted
    ensures { result ≡ emitted_of outcome.now }
{
    match outcome {
        Outcome::Reads(_, None) => Emitted::Whole,
        Outcome::Reads(_, Some(stop)) => Emitted::Stopped(*stop),
        Outcome::Refused(at, rule) => Emitted::Refused(*at, *rule),
    }
}

/// The text of a plan, but of a refused trace where it isn't asked for.
fn text_of(alloc: Global, plan: &Plan<'_>, wanted: Wanted<'_>) -> Result<Vec<u8>, AllocError>
    ensures { IfOk result (λ text. text.items ≡ text_of wanted.entry plan.now) }
{
    if wanted.refused || is_accepted(&plan.outcome) {
        program_text(alloc, plan, wanted.header)
    } else {
        Ok(Vec::new(alloc))
    }
}

/// Whether reads are promised.
fn is_accepted(outcome: &Outcome) -> bool
    ensures { result ≡ is_accepted outcome.now }
{
    match outcome {
        Outcome::Reads(_, _) => true,
        Outcome::Refused(_, _) => false,
    }
}
