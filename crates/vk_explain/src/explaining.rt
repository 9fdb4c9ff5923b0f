ghost use Rattle.std.specs.Prelude.{◌≡◌, ◌↔◌, ◌⊎◌, ◌≤◌, ◌<◌, ◌+◌, ℕ, List, take, length, IfOk, IfErr, IfSome, IsTrue, string_bytes, false};
ghost use Rattle.std.specs.Io.KnownBytes.{Appends, Keeps};
ghost use Rattle.vk_model.specs.declared.entry.Entry.{Entry};
ghost use Rattle.std.specs.Option.{option_map};
ghost use Rattle.vk_model.specs.Rules.Table.{first_fault};
ghost use Rattle.vk_trace.specs.Trace.{IsTrace};
ghost use Rattle.vk_trace.specs.Watching.{counted};
ghost use Rattle.vk_trace.specs.Streams.{IsBeforeWriting, IsJudged};
ghost use Rattle.vk_explain.specs.Presented.{IsAnswer};
ghost use Rattle.vk_explain.specs.declared.forms.Form.TheVariants.{Json};
ghost use Rattle.vk_explain.specs.Explained.{Answers, Explains, IsExplained, IsExplanation, judgment_of};
ghost use Rattle.vk_findings.specs.Reports.{IsReport, fault_in};

use crate::forms::{Form, Wanted};
use crate::json::{acceptance_json, refusal_json};
use crate::mending::{repaired_members, repaired_with};
use crate::mistakes::no_trace;
use crate::presentation::{Presentation, presented};
use crate::reports::{acceptance_text, refusal_text};
use std::alloc::{AllocError, Global};
use std::io::{Read, Write};
use vk_findings::{Report, report_of};
use vk_model::{At, Entry, Rule};
use vk_queues::reference_order;
use vk_trace::{ReadTraceError, RunError, Watched, read_all, read_trace, write_all};

/// The verdict on an input, without its fault.
#[derive(Clone, Copy, Debug, PartialEq, Eq)]
pub enum Judgment {
    /// It is a trace that breaks no rule.
    Accepted,
    /// It is a trace that breaks a rule.
    Refused,
    /// It is no trace.
    NoTrace,
}

/// What is said of an input.
#[derive(Drop)]
pub struct Explanation {
    /// The verdict.
    pub judgment: Judgment,
    /// The text to write.
    pub text: String,
}

/// Reads an input to its end, and writes what is said of it: that it is a trace that is accepted and
/// what it has, or that is refused, where, by which rule, and what the point does, or that it is no
/// trace; or the trace as it is after repairs, whose lines are added to `changes`. Nothing is run. Nothing
/// is written before the whole text is built, so only `WriteFault` has written a front of it. Nothing is
/// flushed.
///
/// # Errors
///
/// Those of reading, of writing, and `NoMemory`.
pub fn run<R: Read, W: Write>(
    alloc: Global,
    reader: &mut Watched<R>,
    writer: &mut Watched<W>,
    wanted: Wanted,
    presentation: &Presentation<'_>,
    changes: &mut String,
) -> Result<Judgment, RunError>
    requires reads { reader.old.failed ≡ false }
    requires writes { writer.old.failed ≡ false }
    // What is asked of the bytes that were read is written, as it is presented, and nothing else is.
    ensures done { IfOk result (λ judgment. IfSome (R.remaining reader.old.inner) (λ input.
        (shown : List ℕ) × IsAnswer wanted presentation.now input shown judgment
        × Appends (W.contents writer.old.inner) (W.contents writer.new.inner) shown)) }
    // That there is no trace is no error, but a verdict.
    ensures no_trace { result ≡ Err RunError.NotTrace → ⊥ }
    // Every error but that of a write has written nothing.
    ensures silent { IfErr result (λ e. IsBeforeWriting e
        → Keeps (W.contents writer.old.inner) (W.contents writer.new.inner)) }
    ensures read_fault { (result ≡ Err RunError.ReadFault) ↔ IsTrue reader.new.failed }
    ensures write_fault { (n : ℕ) → result ≡ Err (RunError.WriteFault n) → IsTrue writer.new.failed }
    ensures write_failed { IsTrue writer.new.failed → (n : ℕ) × (result ≡ Err (RunError.WriteFault n)) }
    // Only an input of so many bytes and reads is looked at.
    ensures within { IsJudged result → IfSome (R.remaining reader.old.inner) (λ input. length input ≤ 16777216) }
    ensures calls { reader.new.calls ≤ reader.old.calls + 1048576 }
    // Either there are more bytes than that, or so many reads came to no end.
    ensures too_long { result ≡ Err RunError.TooLong → (reader.new.calls ≡ counted reader.old.calls 1048576)
        ⊎ IfSome (R.remaining reader.old.inner) (λ input. 16777216 < length input) }
{
    let input = read_all(alloc, reader)?;
    match answer_to(alloc, &input, wanted, presentation, changes) {
        Ok(answer) => {
            write_all(writer, answer.shown.as_slice())?;
            Ok(answer.judgment)
        }
        Err(_) => Err(RunError::NoMemory),
    }
}

/// What is written of an input.
#[derive(Drop)]
struct Answer {
    /// The verdict.
    judgment: Judgment,
    /// The bytes to write.
    shown: Vec<u8>,
}

/// What is asked of the bytes of an input, as it is presented.
fn answer_to(
    alloc: Global,
    input: &[u8],
    wanted: Wanted,
    presentation: &Presentation<'_>,
    changes: &mut String,
) -> Result<Answer, AllocError>
    ensures { IfOk result (λ a. IsAnswer wanted presentation.now input.now a.shown.items a.judgment) }
{
    let Explanation { judgment, text } = said_of(alloc, input, wanted, changes)?;
    let shown = presented(alloc, text.as_bytes(), wanted, presentation)?;
    Ok(Answer { judgment, shown })
}

/// What is asked of the bytes of an input.
fn said_of(
    alloc: Global,
    input: &[u8],
    wanted: Wanted,
    changes: &mut String,
) -> Result<Explanation, AllocError>
    ensures { IfOk result (λ e. Answers wanted input.now (string_bytes e.text) e.judgment) }
{
    match wanted {
        Wanted::Explained(form) => explanation_of(alloc, input, form),
        Wanted::Repaired => repaired_with(alloc, input, Form::Text, changes),
        Wanted::ExplainedAndRepaired => explained_and_repaired(alloc, input),
    }
}

/// What is said of the bytes of an input: the verdict, and the text, which begins with that verdict.
/// Nothing is run. The only error is want of memory.
pub fn explanation_of(alloc: Global, input: &[u8], form: Form) -> Result<Explanation, AllocError>
    ensures { IfOk result (λ e. Explains form input.now (string_bytes e.text) e.judgment) }
{
    explanation_with(alloc, input, form, "")
}

/// The object on the bytes of an input, as `explanation_of` has it, with each repair of the trace and the
/// trace as it is after them. The verdict is that on the given trace. The only error is want of memory.
pub fn explained_and_repaired(alloc: Global, input: &[u8]) -> Result<Explanation, AllocError>
    ensures { IfOk result (λ e. Explains Json input.now (string_bytes e.text) e.judgment) }
{
    let members = repaired_members(alloc, input)?;
    explanation_with(alloc, input, Form::Json, members.as_str())
}

/// What is said of the bytes of an input; these members are the last ones of an object on a trace.
fn explanation_with(
    alloc: Global,
    input: &[u8],
    form: Form,
    members: &str,
) -> Result<Explanation, AllocError>
    ensures { IfOk result (λ e. Explains form input.now (string_bytes e.text) e.judgment) }
{
    match read_trace(alloc, input) {
        Ok(trace) => explained(alloc, input, trace.as_slice(), form, members),
        Err(ReadTraceError::NotTrace) => no_trace(alloc, input, form),
        Err(ReadTraceError::NoMemory) => Err(AllocError),
    }
}

/// What is said of a trace.
fn explained(
    alloc: Global,
    input: &[u8],
    trace: &[Entry],
    form: Form,
    members: &str,
) -> Result<Explanation, AllocError>
    requires { IsTrace input.now trace.now }
    ensures { IfOk result (λ e. Explains form input.now (string_bytes e.text) e.judgment) }
{
    let points = reference_order(alloc, trace)?;
    let report = report_of(alloc, trace, points.as_slice())?;
    let text = text_of(alloc, input, trace, &report, form, members)?;
    let judgment = judgment_by(fault_of(&report));
    Ok(Explanation { judgment, text })
}

/// The fault that is reported, where there is one.
fn fault_of(report: &Option<Report<'_>>) -> Option<(At, Rule)>
    ensures { result ≡ option_map fault_in report.now }
{
    match report {
        Some(report) => Some((report.at, report.rule)),
        None => None,
    }
}

/// The verdict on a trace, by its first fault.
pub fn judgment_by(fault: Option<(At, Rule)>) -> Judgment
    ensures { result ≡ judgment_of fault }
{
    match fault {
        None => Judgment::Accepted,
        Some(_) => Judgment::Refused,
    }
}

/// The text on a trace, by what is reported of its first fault.
fn text_of(
    alloc: Global,
    input: &[u8],
    trace: &[Entry],
    report: &Option<Report<'_>>,
    form: Form,
    members: &str,
) -> Result<String, AllocError>
    requires exact { option_map fault_in report.now ≡ first_fault trace.now }
    requires so { IfSome report.now (IsReport trace.now) }
    ensures { IfOk result (λ text. IsExplanation form trace.now (option_map fault_in report.now) (string_bytes text)) }
{
    match (report, form) {
        (None, Form::Text) => acceptance_text(alloc, trace),
        (None, Form::Json) => acceptance_json(alloc, trace, members),
        (Some(report), Form::Text) => refusal_text(alloc, input, trace, report),
        (Some(report), Form::Json) => refusal_json(alloc, input, trace, report, members),
    }
}
