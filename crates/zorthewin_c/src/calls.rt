ghost use Rattle.std.specs.Prelude.{◌≡◌, ◌<◌};
ghost use Rattle.vk_model.specs.Memory.HeapSizes.{IsHeapSize};
ghost use Rattle.vk_explain.specs.declared.forms.Form.TheVariants.{Text, Json};
ghost use Rattle.vk_explain.specs.declared.forms.Wanted.TheVariants.{Explained, Repaired, ExplainedAndRepaired};
ghost use Rattle.zorthewin_c.specs.Calls.{IsHanded, IsNothing, replay_number, judgment_number, ReplayComes, ExplanationComes};

use std::alloc::Global;
use vk_explain::{
    Explanation, Form, Judgment, Wanted, explained_and_repaired, explanation_of, repaired_of,
};
use vk_model::{Config, First, Last, Scheduler, Seeded};
use vk_run::{QueueCaches, Status, answer_of};
use vk_trace::ReadTraceError;

/// The trace was replayed; it is accepted.
const GOOD: u32 = 0;
/// The trace is refused.
const REFUSED: u32 = 1;
/// The bytes are no trace.
const NO_TRACE: u32 = 2;
/// The trace was replayed up to an allocation that found no room.
const STOPPED: u32 = 3;
/// There is no memory.
const NO_MEMORY: u32 = 4;
/// An argument isn't one of those that there are.
const NO_ARGUMENT: u32 = 6;

/// Writes the front of a text that `out` has room for, and notes how long the text is.
fn hand_out(text: &[u8], out: &mut [u8], length: &mut usize)
    ensures { IsHanded text.now out.old out.new length.new }
{
    *length = text.len();
    let there = text.len().min(out.len());
    out[..there].copy_from_slice(&text[..there]);
}

/// The number of how a replay ended.
fn number_of_status(status: Status) -> u32
    ensures { result ≡ replay_number status }
{
    match status {
        Status::Replayed => GOOD,
        Status::Refused => REFUSED,
        Status::Stopped => STOPPED,
    }
}

/// The number of a verdict.
fn number_of_judgment(judgment: Judgment) -> u32
    ensures { result ≡ judgment_number judgment }
{
    match judgment {
        Judgment::Accepted => GOOD,
        Judgment::Refused => REFUSED,
        Judgment::NoTrace => NO_TRACE,
    }
}

/// Replays a trace in the order that a scheduler picks.
fn replay_by<S: Scheduler>(
    alloc: Global,
    trace: &[u8],
    config: Config,
    sched: &mut S,
    out: &mut [u8],
    length: &mut usize,
) -> u32
    ensures { ReplayComes config trace.now out.old out.new length.new result }
{
    *length = 0;
    match answer_of(alloc, trace, config, QueueCaches::Without, sched) {
        Ok(answer) => {
            hand_out(answer.text.as_bytes(), out, length);
            number_of_status(answer.status)
        }
        Err(ReadTraceError::NotTrace) => NO_TRACE,
        Err(ReadTraceError::NoMemory) => NO_MEMORY,
    }
}

/// Replays a trace on heaps of these sizes in bytes, in the order 0 (first), 1 (last) or 2 (by the
/// seed). It answers 0 where the trace was replayed, 1 where it is refused, 2 where the bytes are no
/// trace, 3 where an allocation found no room, 4 where there is no memory, and 6 where the order or a
/// size isn't one that there is. Of 0, 1 and 3 the answer's text is written to `out`, as much as there
/// is room for, and its whole length to `length`; else 0 is.
#[unsafe(no_mangle)]
pub extern "C" fn zw_replay(
    alloc: Global,
    trace: &[u8],
    order: u8,
    seed: u64,
    heap0: u64,
    heap1: u64,
    out: &mut [u8],
    length: &mut usize,
) -> u32
    ensures answers { IsHeapSize heap0 × IsHeapSize heap1 × order < 3 → ReplayComes (record { heap0 = heap0; heap1 = heap1 }) trace.now out.old out.new length.new result }
    ensures otherwise { (IsHeapSize heap0 × IsHeapSize heap1 × order < 3 → ⊥) → IsNothing out.old out.new length.new × (result ≡ 6) }
{
    *length = 0;
    let Some(config) = Config::new(heap0, heap1) else {
        return NO_ARGUMENT;
    };
    match order {
        0 => replay_by(alloc, trace, config, &mut First, out, length),
        1 => replay_by(alloc, trace, config, &mut Last, out, length),
        2 => replay_by(alloc, trace, config, &mut Seeded::new(seed), out, length),
        _ => NO_ARGUMENT,
    }
}

/// Says what is asked of a trace.
fn say(alloc: Global, trace: &[u8], wanted: Wanted, out: &mut [u8], length: &mut usize) -> u32
    ensures { ExplanationComes wanted trace.now out.old out.new length.new result }
{
    *length = 0;
    let said = match wanted {
        Wanted::Explained(form) => explanation_of(alloc, trace, form),
        Wanted::Repaired => repaired_of(alloc, trace),
        Wanted::ExplainedAndRepaired => explained_and_repaired(alloc, trace),
    };
    match said {
        Ok(Explanation { judgment, text }) => {
            hand_out(text.as_bytes(), out, length);
            number_of_judgment(judgment)
        }
        Err(_) => NO_MEMORY,
    }
}

/// Explains a trace in the form 0 (lines), 1 (a JSON object), 2 (the trace after repairs, and of the
/// verdict that on it) or 3 (the object, with the repairs and the trace after them). It answers 0 where the
/// trace is accepted, 1 where it is refused, 2 where the bytes are no trace, 4 where there is no memory, and
/// 6 where the form isn't one that there is. Of 0, 1 and 2 the text is written to `out`, as much as there is
/// room for, and its whole length to `length`; else 0 is.
#[unsafe(no_mangle)]
pub extern "C" fn zw_explain(
    alloc: Global,
    trace: &[u8],
    form: u8,
    out: &mut [u8],
    length: &mut usize,
) -> u32
    ensures lines { form ≡ 0 → ExplanationComes (Explained Text) trace.now out.old out.new length.new result }
    ensures object { form ≡ 1 → ExplanationComes (Explained Json) trace.now out.old out.new length.new result }
    ensures repaired { form ≡ 2 → ExplanationComes Repaired trace.now out.old out.new length.new result }
    ensures both { form ≡ 3 → ExplanationComes ExplainedAndRepaired trace.now out.old out.new length.new result }
    ensures otherwise { (form < 4 → ⊥) → IsNothing out.old out.new length.new × (result ≡ 6) }
{
    *length = 0;
    match form {
        0 => say(alloc, trace, Wanted::Explained(Form::Text), out, length),
        1 => say(alloc, trace, Wanted::Explained(Form::Json), out, length),
        2 => say(alloc, trace, Wanted::Repaired, out, length),
        3 => say(alloc, trace, Wanted::ExplainedAndRepaired, out, length),
        _ => NO_ARGUMENT,
    }
}
