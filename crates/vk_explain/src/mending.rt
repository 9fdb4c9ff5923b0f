ghost use Rattle.std.specs.Prelude.{◌≡◌, IfOk, IfSome, string_bytes};
ghost use Rattle.vk_model.specs.Rules.Table.{first_fault};
ghost use Rattle.vk_trace.specs.Trace.{IsTrace};
ghost use Rattle.vk_explain.specs.Explained.{Answers, IsJudgedTrace};
ghost use Rattle.vk_explain.specs.declared.forms.Wanted.TheVariants.{Repaired};

use crate::explaining::{Explanation, Judgment, judgment_by};
use crate::forms::Form;
use crate::json::push_repair_of;
use crate::mistakes::no_trace;
use crate::patching::patched;
use crate::repairs::{
    NONE_FOUND, RepairSearch, RepairWords, lines_of, none_sought, sought, words_of,
};
use std::alloc::{AllocError, Global};
use std::marker::Model;
use vk_model::{At, Entry, Rule};
use vk_repairs::Repair;
use vk_trace::{ReadTraceError, read_trace};
use vk_validate::{Verdict, validate};
use vk_words::push_at;
use vk_writer::trace_json;

/// So often a repair is sought, each of the trace that the one before it made.
const MOST_REPAIRS: usize = 25;

/// The trace in the bytes of an input as it is after repairs, as JSON, with the verdict on it. What is
/// written has been read again, and the verdict is of what was read. What no repair changes is written as
/// it is in the input. The only error is want of memory.
pub fn repaired_of(alloc: Global, input: &[u8]) -> Result<Explanation, AllocError>
    ensures { IfOk result (λ e. Answers Repaired input.now (string_bytes e.text) e.judgment) }
{
    repaired_with(alloc, input, Form::Text, &mut String::new(alloc))
}

/// The members with each repair of the trace in the bytes of an input, and with the trace as it is after
/// them, without spaces; nothing where the input is no trace.
pub(crate) fn repaired_members(alloc: Global, input: &[u8]) -> Result<String, AllocError> {
    let mut repairs = String::new(alloc);
    let repaired = repaired_with(alloc, input, Form::Json, &mut repairs)?;
    let mut members = String::new(alloc);
    let verdict = match repaired.judgment {
        Judgment::Accepted => "accepted",
        Judgment::Refused => "refused",
        Judgment::NoTrace => return Ok(members),
    };
    members.push_str(",\"repairs\":[")?;
    members.push_str(repairs.as_str())?;
    members.push_str("],\"repaired\":{\"verdict\":\"")?;
    members.push_str(verdict)?;
    members.push_str("\",\"trace\":")?;
    // No word of a trace has spaces.
    for part in repaired.text.as_str().split_ascii_whitespace() {
        members.push_str(part)?;
    }
    members.push_str("}")?;
    Ok(members)
}

/// The trace in the bytes of an input as it is after repairs, as `repaired_of` has it; what is said of each
/// repair is added to `changes`, as lines or as objects with commas between them.
pub(crate) fn repaired_with(
    alloc: Global,
    input: &[u8],
    form: Form,
    changes: &mut String,
) -> Result<Explanation, AllocError>
    ensures { IfOk result (λ e. Answers Repaired input.now (string_bytes e.text) e.judgment) }
{
    match read_trace(alloc, input) {
        Ok(trace) => mended(alloc, input, trace, form, changes),
        Err(ReadTraceError::NotTrace) => no_trace(alloc, input, Form::Text),
        Err(ReadTraceError::NoMemory) => Err(AllocError),
    }
}

/// A trace after repairs.
fn mended(
    alloc: Global,
    input: &[u8],
    trace: Vec<Entry>,
    form: Form,
    changes: &mut String,
) -> Result<Explanation, AllocError>
    requires { IsTrace input.now trace.items }
    ensures { IfOk result (λ e. Answers Repaired input.now (string_bytes e.text) e.judgment) }
{
    let fault = fault_of(alloc, trace.as_slice())?;
    let given = unchanged(alloc, input, trace.as_slice(), fault)?;
    let mending = Mending::of(alloc, input, form, changes)?;
    let Some(text) = after_repairs(alloc, trace, fault, mending)? else {
        return Ok(given);
    };
    match judged(alloc, text.as_bytes())? {
        Some(judgment) => Ok(Explanation { judgment, text }),
        None => Ok(given),
    }
}

/// The first fault of a trace.
fn fault_of(alloc: Global, trace: &[Entry]) -> Result<Option<(At, Rule)>, AllocError>
    ensures { IfOk result (λ fault. fault ≡ first_fault trace.now) }
{
    match validate(alloc, trace)? {
        Verdict::Accepted(_) => Ok(None),
        Verdict::Refused(at, rule) => Ok(Some((at, rule))),
    }
}

/// The verdict on a text, if it is that of a trace.
fn judged(alloc: Global, text: &[u8]) -> Result<Option<Judgment>, AllocError>
    ensures { IfOk result (λ found. IfSome found (IsJudgedTrace text.now)) }
{
    match read_trace(alloc, text) {
        Ok(trace) => {
            let fault = fault_of(alloc, trace.as_slice())?;
            Ok(Some(judgment_by(fault)))
        }
        Err(ReadTraceError::NotTrace) => Ok(None),
        Err(ReadTraceError::NoMemory) => Err(AllocError),
    }
}

/// The input as it is, with the verdict by its first fault.
#[tactic(auto, using(crate::proofs::Verdicts::judges))]
fn unchanged(
    alloc: Global,
    input: &[u8],
    _trace: &[Entry],
    fault: Option<(At, Rule)>,
) -> Result<Explanation, AllocError>
    requires trace { IsTrace input.now _trace.now }
    requires fault { fault ≡ first_fault _trace.now }
    ensures { IfOk result (λ e. Answers Repaired input.now (string_bytes e.text) e.judgment) }
{
    let Ok(text) = str::from_utf8(input) else {
        unreachable!();
    };
    let text = String::from_str(alloc, text)?;
    let judgment = judgment_by(fault);
    Ok(Explanation { judgment, text })
}

/// A trace, with its first fault.
#[derive(Drop)]
struct Faulted {
    trace: Vec<Entry>,
    fault: Option<(At, Rule)>,
}

impl Model for Faulted {
    ghost use Rattle.std.specs.Prelude.{◌≡◌, List};
    ghost use Rattle.vk_model.specs.declared.entry.Entry.{Entry as AnyEntry};
    ghost use Rattle.vk_model.specs.Rules.Table.{first_fault};

    ghost Value = { List AnyEntry };

    ghost view = { λ f. f.trace.items };

    ghost invariant = { λ f. f.fault ≡ first_fault f.trace.items };
}

impl Faulted {
    /// What a repair makes of it, if one is found; the repair is told of.
    fn next(
        &self,
        alloc: Global,
        mending: &mut Mending<'_>,
    ) -> Result<Option<Faulted>, AllocError> {
        let Some((at, rule)) = self.fault else {
            return Ok(None);
        };
        mending.push_fault(at, rule)?;
        match sought(alloc, self.trace.as_slice(), at, rule)? {
            RepairSearch::Found(found) => {
                let words = words_of(alloc, self.trace.as_slice(), at, rule, &found)?;
                mending.push_repair(alloc, (at, rule), words, found.next)?;
                let Repair {
                    edits: _,
                    changed,
                    next,
                    weaker: _,
                    stands_in: _,
                } = found;
                Ok(Some(Faulted {
                    trace: changed,
                    fault: next,
                }))
            }
            RepairSearch::Nothing => {
                mending.push_line(NONE_FOUND)?;
                Ok(None)
            }
            RepairSearch::TooLarge => {
                let line = none_sought(alloc)?;
                mending.push_line(line.as_str())?;
                Ok(None)
            }
        }
    }
}

/// What is told of repairs, and the text that they make of an input.
#[derive(Drop)]
struct Mending<'a> {
    /// The lines on each repair, or the objects, with commas between them.
    changes: &'a mut String,
    /// Which of the two.
    form: Form,
    /// Whether there was a repair.
    is_changed: bool,
    /// The text after the repairs so far; none where one of them has no place in it.
    text: Option<Vec<u8>>,
}

impl<'a> Mending<'a> {
    /// Before the first repair of an input.
    fn of(
        alloc: Global,
        input: &[u8],
        form: Form,
        changes: &'a mut String,
    ) -> Result<Mending<'a>, AllocError> {
        let mut text = Vec::new(alloc);
        text.extend_from_slice(input)?;
        Ok(Mending {
            changes,
            form,
            is_changed: false,
            text: Some(text),
        })
    }
}

impl Mending<'_> {
    /// Adds a line, where lines are told.
    fn push_line(&mut self, line: &str) -> Result<(), AllocError> {
        match self.form {
            Form::Text => self.changes.push_str(line),
            Form::Json => Ok(()),
        }
    }

    /// The line on the fault that a repair is sought for.
    fn push_fault(&mut self, at: At, rule: Rule) -> Result<(), AllocError> {
        if self.form == Form::Json {
            return Ok(());
        }
        self.changes.push_str("refused ")?;
        push_at(self.changes, at)?;
        self.changes.push_str(" ")?;
        self.changes.push_str(rule.name())?;
        self.changes.push_str("\n")
    }

    /// What is said of a repair of a fault, after which another one is the first, and the text with its
    /// edits.
    fn push_repair(
        &mut self,
        alloc: Global,
        fault: (At, Rule),
        words: RepairWords,
        next: Option<(At, Rule)>,
    ) -> Result<(), AllocError> {
        for edit in &words.edits {
            if let Some(text) = self.text.take() {
                self.text = patched(alloc, text.as_slice(), edit)?;
            }
        }
        match self.form {
            Form::Text => {
                let lines = lines_of(alloc, &words, next)?;
                self.changes.push_str(lines.as_str())?;
            }
            Form::Json => {
                if self.is_changed {
                    self.changes.push_str(",")?;
                }
                let (at, rule) = fault;
                push_repair_of(alloc, self.changes, at, rule, words)?;
            }
        }
        self.is_changed = true;
        Ok(())
    }
}

/// The text of a trace after as many repairs as are found; none where there is none.
fn after_repairs(
    alloc: Global,
    trace: Vec<Entry>,
    fault: Option<(At, Rule)>,
    mending: Mending<'_>,
) -> Result<Option<String>, AllocError>
    requires { fault ≡ first_fault trace.items }
{
    let mut mending = mending;
    let mut faulted = Faulted { trace, fault };
    for _ in 0..MOST_REPAIRS {
        match faulted.next(alloc, &mut mending)? {
            Some(next) => faulted = next,
            None => break,
        }
    }
    if !mending.is_changed {
        return Ok(None);
    }
    let text = written(alloc, faulted.trace.as_slice(), mending.text.take())?;
    Ok(Some(text))
}

/// A trace as it is in a text, where it is; else entry by entry.
fn written(alloc: Global, trace: &[Entry], text: Option<Vec<u8>>) -> Result<String, AllocError> {
    let plain = trace_json(alloc, trace)?;
    let Some(bytes) = text else {
        return Ok(plain);
    };
    let Ok(text) = str::from_utf8(bytes.as_slice()) else {
        return Ok(plain);
    };
    match read_trace(alloc, bytes.as_slice()) {
        Ok(again) => {
            let same = trace_json(alloc, again.as_slice())?;
            if same.as_str() == plain.as_str() {
                String::from_str(alloc, text)
            } else {
                Ok(plain)
            }
        }
        Err(ReadTraceError::NotTrace) => Ok(plain),
        Err(ReadTraceError::NoMemory) => Err(AllocError),
    }
}
