ghost use Rattle.std.specs.Prelude.{◌≡◌, ◌<◌, ◌≤◌, ℕ, if◌then◌else◌, length, set, slice_index_or, false, Some, None};
ghost use Rattle.std.specs.Prelude.{vec_capacity};
ghost use Rattle.vk_lag.specs.Lags.{is_between};
ghost use Rattle.vk_lag.specs.Inner.{IsPart, mark_at, writer_at, writer_by, writer_in, still_late};
ghost use Rattle.vk_lag.specs.declared.marks.Mark.TheVariants as mark;

use crate::late::{Due, Writer, is_due, still_late};
use crate::parts::Part;
use crate::reaching::reach;

/// What is so of the bytes of a chunk.
#[derive(Clone, Copy, PartialEq, Eq, Debug)]
pub(crate) enum Mark {
    /// None of them is late.
    Clean,
    /// All are late, by one command.
    Whole(Writer),
    /// Each byte has its writer, or none if it isn't late.
    Mixed,
}

/// The writer of a byte by the mark of its chunk; none where the byte isn't late.
pub(crate) fn writer_by(mark: Mark, writers: &[Option<Writer>], at: usize) -> Option<Writer>
    ensures { result ≡ writer_by mark (writer_at writers.now at) }
{
    match mark {
        Mark::Clean => None,
        Mark::Whole(writer) => Some(writer),
        Mark::Mixed => match writers.get(at) {
            Some(writer) => *writer,
            None => None,
        },
    }
}

/// The bytes of a part become late, by one command.
pub(crate) fn claim(
    marks: &mut Vec<Mark>,
    writers: &mut Vec<Option<Writer>>,
    part: Part,
    size: usize,
    writer: Writer,
)
    requires part { IsPart size part }
    requires chunk { part.chunk < length marks.old.items }
    requires room { size ≤ vec_capacity writers.old }
    ensures len { length marks.new.items ≡ length marks.old.items }
    ensures capacity { vec_capacity writers.old ≤ vec_capacity writers.new }
    ensures bytes { (k : ℕ) → k < size → writer_in marks.new.items writers.new.items k
        ≡ (if is_between part.low part.high k then Some writer else writer_in marks.old.items writers.old.items k) }
{
    if part.is_whole() {
        marks[part.chunk] = Mark::Whole(writer);
    } else {
        mix(marks, writers, part, size);
        set_writers(writers, part.low, part.high, Some(writer));
    }
}

/// Memory catches up with the bytes of a part that are due; the answer is whether one of these may be
/// late still.
pub(crate) fn settle(
    marks: &mut Vec<Mark>,
    writers: &mut Vec<Option<Writer>>,
    part: Part,
    size: usize,
    due: Due,
) -> bool
    requires part { IsPart size part }
    requires chunk { part.chunk < length marks.old.items }
    requires room { size ≤ vec_capacity writers.old }
    ensures len { length marks.new.items ≡ length marks.old.items }
    ensures capacity { vec_capacity writers.old ≤ vec_capacity writers.new }
    ensures bytes { (k : ℕ) → k < size → writer_in marks.new.items writers.new.items k
        ≡ (if is_between part.low part.high k then still_late due (writer_in marks.old.items writers.old.items k) else writer_in marks.old.items writers.old.items k) }
    ensures none { result ≡ false → (k : ℕ) → part.low ≤ k → k < part.high → writer_in marks.new.items writers.new.items k ≡ None }
{
    match marks[part.chunk] {
        Mark::Clean => false,
        Mark::Whole(writer) => {
            let is_due = is_due(due, writer);
            if is_due {
                clear(marks, writers, part, size);
            }
            !is_due
        }
        Mark::Mixed => {
            let some = settle_bytes(writers, part.low, part.high, due);
            if part.is_whole() && !some {
                marks[part.chunk] = Mark::Clean;
            }
            some
        }
    }
}

/// No byte of a part is late.
fn clear(marks: &mut Vec<Mark>, writers: &mut Vec<Option<Writer>>, part: Part, size: usize)
    requires part { IsPart size part }
    requires chunk { part.chunk < length marks.old.items }
    requires room { size ≤ vec_capacity writers.old }
    ensures len { length marks.new.items ≡ length marks.old.items }
    ensures capacity { vec_capacity writers.old ≤ vec_capacity writers.new }
    ensures bytes { (k : ℕ) → k < size → writer_in marks.new.items writers.new.items k
        ≡ (if is_between part.low part.high k then None else writer_in marks.old.items writers.old.items k) }
{
    if part.is_whole() {
        marks[part.chunk] = Mark::Clean;
    } else {
        mix(marks, writers, part, size);
        set_writers(writers, part.low, part.high, None);
    }
}

/// Each byte of a part's chunk has its own writer from now on.
fn mix(marks: &mut Vec<Mark>, writers: &mut Vec<Option<Writer>>, part: Part, size: usize)
    requires part { IsPart size part }
    requires chunk { part.chunk < length marks.old.items }
    requires room { size ≤ vec_capacity writers.old }
    ensures marks { marks.new.items ≡ set marks.old.items part.chunk mark.Mixed }
    ensures capacity { vec_capacity writers.old ≤ vec_capacity writers.new }
    ensures bytes { (k : ℕ) → k < size → writer_in marks.new.items writers.new.items k ≡ writer_in marks.old.items writers.old.items k }
{
    let writer = match marks[part.chunk] {
        Mark::Clean => None,
        Mark::Whole(writer) => Some(writer),
        Mark::Mixed => return,
    };
    set_writers(writers, part.first, part.stop, writer);
    marks[part.chunk] = Mark::Mixed;
}

/// The bytes from byte `low` to before byte `high` get this writer.
fn set_writers(writers: &mut Vec<Option<Writer>>, low: usize, high: usize, writer: Option<Writer>)
    requires order { low ≤ high }
    requires room { high ≤ vec_capacity writers.old }
    ensures capacity { vec_capacity writers.old ≤ vec_capacity writers.new }
    ensures bytes { (k : ℕ) → writer_at writers.new.items k ≡ (if is_between low high k then writer else writer_at writers.old.items k) }
{
    reach(writers, high, None);
    for i in low..high {
        writers[i] = writer;
    }
}

/// Memory catches up with the bytes from byte `low` to before byte `high` that are due, each of which has
/// its own writer; the answer is whether one of these is late still.
fn settle_bytes(writers: &mut Vec<Option<Writer>>, low: usize, high: usize, due: Due) -> bool
    ensures capacity { vec_capacity writers.old ≤ vec_capacity writers.new }
    ensures bytes { (k : ℕ) → writer_at writers.new.items k
        ≡ (if is_between low high k then still_late due (writer_at writers.old.items k) else writer_at writers.old.items k) }
    ensures none { result ≡ false → (k : ℕ) → low ≤ k → k < high → writer_at writers.new.items k ≡ None }
{
    let mut some = false;
    for i in low..high.min(writers.len()) {
        let writer = still_late(due, writers[i]);
        some = some || writer.is_some();
        writers[i] = writer;
    }
    some
}
