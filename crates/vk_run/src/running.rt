ghost use Rattle.std.specs.Prelude.{◌≡◌, ◌↔◌, ◌⊎◌, ◌≤◌, ◌<◌, ◌+◌, ℕ, List, take, length, IfOk, IfErr, IfSome, IsTrue, string_bytes, false};
ghost use Rattle.std.specs.Io.KnownBytes.{Appends, Keeps};
ghost use Rattle.vk_model.specs.declared.entry.Entry.{Entry};
ghost use Rattle.vk_trace.specs.declared.printing.Outcome.{Outcome};
ghost use Rattle.vk_trace.specs.Trace.{IsTrace};
ghost use Rattle.vk_trace.specs.Watching.{counted};
ghost use Rattle.vk_trace.specs.Streams.{IsBeforeWriting, IsJudged};
ghost use Rattle.vk_run.specs.Run.{Reports, IsAnswer, IsAnswerThroughCaches, Leaves, status_of};

use crate::replaying::{QueueCaches, reported};
use std::alloc::{AllocError, Global};
use std::io::{Read, Write};
use vk_cache_laws::cached_runs_read_the_meaning;
use vk_model::{Config, Entry, Scheduler};
use vk_trace::{Outcome, ReadTraceError, RunError, Watched, read_all, read_trace, text, write_all};
use vk_validate::{Verdict, validate};

/// How a run went that gave an answer.
#[derive(Clone, Copy, Debug, PartialEq, Eq)]
pub enum Status {
    /// Each entry was replayed.
    Replayed,
    /// The trace breaks a rule, and no entry was replayed.
    Refused,
    /// An entry found no room. Those before it were replayed.
    Stopped,
}

/// What is answered to an input.
#[derive(Drop)]
pub struct Answer {
    /// How the run went.
    pub status: Status,
    /// The text to write: a line for each read, and one for a stop or a refusal.
    pub text: String,
}

/// Reads a trace to its end, looks for a broken rule, replays it where there is none, and writes the
/// text of the answer: the bytes that the trace means, up to the first entry that finds no room in heaps
/// of these sizes, or a refusal. Nothing is written before the whole text is built, so only `WriteFault` has
/// written a front of it. Nothing is flushed. With caches of queues and without the answer is the same.
pub fn run<R: Read, W: Write, S: Scheduler>(
    alloc: Global,
    reader: &mut Watched<R>,
    writer: &mut Watched<W>,
    config: Config,
    caches: QueueCaches,
    sched: &mut S,
) -> Result<Status, RunError>
    requires reads { reader.old.failed ≡ false }
    requires writes { writer.old.failed ≡ false }
    // The bytes that were read are a trace, the answer to it is written, and nothing else is.
    ensures done { IfOk result (λ status. IfSome (R.remaining reader.old.inner) (λ input.
        (text : List ℕ) × (outcome : Outcome) × (r : Reports config input text outcome) × (status ≡ status_of outcome)
        × Leaves config S.answer S.next r.entries outcome (S.held sched.old) (S.held sched.new)
        × Appends (W.contents writer.old.inner) (W.contents writer.new.inner) text
        × (writer.new.calls ≤ writer.old.calls + length text))) }
    // There is no trace only where the bytes are none.
    ensures no_trace { result ≡ Err RunError.NotTrace
        → IfSome (R.remaining reader.old.inner) (λ input. (t : List Entry) → IsTrace input t → ⊥) }
    // Every error but that of a write has written nothing.
    ensures silent { IfErr result (λ e. IsBeforeWriting e
        → Keeps (W.contents writer.old.inner) (W.contents writer.new.inner)) }
    // A failed write has written the front of the answer.
    ensures written { (n : ℕ) → result ≡ Err (RunError.WriteFault n)
        → IfSome (R.remaining reader.old.inner) (λ input. (text : List ℕ) × (outcome : Outcome)
        × Reports config input text outcome × (n ≤ length text)
        × (writer.new.calls ≤ writer.old.calls + length text)
        × Appends (W.contents writer.old.inner) (W.contents writer.new.inner) (take n text)) }
    ensures read_fault { (result ≡ Err RunError.ReadFault) ↔ IsTrue reader.new.failed }
    ensures write_fault { (n : ℕ) → result ≡ Err (RunError.WriteFault n) → IsTrue writer.new.failed }
    ensures write_failed { IsTrue writer.new.failed → (n : ℕ) × (result ≡ Err (RunError.WriteFault n)) }
    // Only an input of so many bytes and reads is looked at.
    ensures within { IsJudged result → IfSome (R.remaining reader.old.inner) (λ input. length input ≤ 16777216) }
    ensures calls { reader.new.calls ≤ reader.old.calls + 1048576 }
    // Either there are more bytes than that, or so many reads came to no end.
    ensures too_long { result ≡ Err RunError.TooLong → (reader.new.calls ≡ counted reader.old.calls 1048576)
        ⊎ IfSome (R.remaining reader.old.inner) (λ input. 16777216 < length input) }
    // Bytes that are no trace leave the scheduler as it was.
    ensures view { result ≡ Err RunError.NotTrace → S.held sched.new ≡ S.held sched.old }
    // So does an input that is not read to its end.
    ensures unread { (result ≡ Err RunError.ReadFault) ⊎ (result ≡ Err RunError.TooLong) → S.held sched.new ≡ S.held sched.old }
    // Every error but that of a write has not called the writer.
    ensures uncalled { IfErr result (λ e. IsBeforeWriting e → writer.new ≡ writer.old) }
{
    let input = read_all(alloc, reader)?;
    match answer_of(alloc, &input, config, caches, sched) {
        Ok(answer) => {
            write_all(writer, answer.text.as_bytes())?;
            Ok(answer.status)
        }
        Err(ReadTraceError::NotTrace) => Err(RunError::NotTrace),
        Err(ReadTraceError::NoMemory) => Err(RunError::NoMemory),
    }
}

/// What is answered to the bytes of an input: how the run went, and the text of the answer, which is that
/// of the trace in the bytes: the bytes that it means, up to the first entry that finds no room in heaps
/// of these sizes, or a refusal. `NotTrace` is answered only where the bytes are no trace.
pub fn answer_of<S: Scheduler>(
    alloc: Global,
    input: &[u8],
    config: Config,
    caches: QueueCaches,
    sched: &mut S,
) -> Result<Answer, ReadTraceError>
    ensures answered { IfOk result (λ a. (outcome : Outcome) × (r : Reports config input.now (string_bytes a.text) outcome) × (a.status ≡ status_of outcome)
        × Leaves config S.answer S.next r.entries outcome (S.held sched.old) (S.held sched.new)) }
    ensures no_trace { result ≡ Err ReadTraceError.NotTrace → (t : List Entry) → IsTrace input.now t → ⊥ }
    ensures view { result ≡ Err ReadTraceError.NotTrace → S.held sched.new ≡ S.held sched.old }
{
    let entries = read_trace(alloc, input)?;
    let outcome = outcome_of(alloc, &entries, config, caches, sched)?;
    let status = answer_status(&outcome);
    let text = text(alloc, &outcome)?;
    Ok(Answer { status, text })
}

fn answer_status(outcome: &Outcome) -> Status
    ensures { result ≡ status_of outcome.now }
{
    match outcome {
        Outcome::Refused(_, _) => Status::Refused,
        Outcome::Reads(_, None) => Status::Replayed,
        Outcome::Reads(_, Some(_)) => Status::Stopped,
    }
}

/// What there is to report of a trace: the bytes that it means, up to the first entry that finds no room
/// in heaps of these sizes, or its first fault. The only error is want of memory.
pub fn outcome_of<S: Scheduler>(
    alloc: Global,
    entries: &[Entry],
    config: Config,
    caches: QueueCaches,
    sched: &mut S,
) -> Result<Outcome, AllocError>
    ensures answer { IfOk result (IsAnswer config entries.now) }
    // The same is read on every device whose queues each keep a write-back cache.
    ensures caches { IfOk result (IsAnswerThroughCaches entries.now) }
    ensures view { IfOk result (λ outcome. Leaves config S.answer S.next entries.now outcome (S.held sched.old) (S.held sched.new)) }
{
    cached_runs_read_the_meaning();
    match validate(alloc, entries)? {
        Verdict::Refused(at, rule) => Ok(Outcome::Refused(at, rule)),
        Verdict::Accepted(accepted) => {
            let outcome = reported(alloc, &accepted, config, caches, sched)?;
            Ok(outcome)
        }
    }
}
