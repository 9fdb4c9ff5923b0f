ghost use Rattle.std.specs.Prelude.{◌≡◌, ◌<◌, ◌≤◌, ◌+◌, ◌-◌, ◌*◌, ◌/◌, ℕ, ◌++◌, if◌then◌else◌, length, replicate, IfOk, vec_capacity, Some};
ghost use Rattle.vk_map_cache.specs.Holdings.{is_between};
ghost use Rattle.vk_map_cache.specs.Inner.Marks.{mark_at, mark_after};

use crate::atoms::Span;
use crate::mark::{Mark, mark_all};
use std::alloc::{AllocError, Global};
use std::marker::Model;

/// How many bytes have one entry that says whether they are held alike.
const CHUNK: usize = 4096;

/// Bytes of one chunk that are held alike.
#[derive(Clone, Copy)]
pub(crate) struct Run {
    /// How they are held.
    pub mark: Mark,
    /// The byte after the last one.
    pub end: usize,
}

/// What a queue's cache does with bytes.
#[derive(Clone, Copy)]
pub(crate) enum Turn {
    /// What is dirty reaches memory, and stays as a copy.
    WriteBack,
    /// What isn't held is copied from memory.
    Load,
    /// Copies aren't held any more.
    Drop,
    /// Nothing is held any more.
    Forget,
}

/// The marks of the bytes of a memory object. Room for all is taken when they are made; they are
/// written up to the last chunk that was reached, and those behind it are absent. Contracts see the
/// list of all marks.
#[derive(Drop)]
pub(crate) struct Marks {
    /// The marks up to the last chunk that was reached.
    marks: Vec<Mark>,
    /// For each chunk the mark that all of its bytes have, where that is known.
    alike: Vec<Option<Mark>>,
    /// How many bytes there are.
    size: usize,
}

impl Model for Marks {
    ghost use Rattle.std.specs.Prelude.{List};
    ghost use Rattle.vk_map_cache.specs.declared.mark.Mark.{Mark};
    ghost use Rattle.vk_map_cache.specs.Inner.Marks.{with_absent};
    ghost use Rattle.vk_map_cache.specs.Inner.AreMarks.{AreMarks};

    ghost Value = { List Mark };

    ghost view = { λ m. with_absent m.marks.items m.size };

    ghost invariant = { AreMarks };
}

impl Marks {
    /// Marks of `size` bytes that aren't held. The only error is want of memory.
    pub(crate) fn new(alloc: Global, size: usize) -> Result<Marks, AllocError>
        ensures { IfOk result (λ m. m ≡ replicate size Mark.Absent) }
    {
        let marks = Vec::with_capacity(alloc, size)?;
        let mut alike = Vec::new(alloc);
        alike.resize(size / CHUNK + 1, Some(Mark::Absent))?;
        Ok(Marks { marks, alike, size })
    }

    /// How a byte is held.
    pub(crate) fn at(&self, k: usize) -> Mark
        ensures { result ≡ mark_at self.now k }
    {
        match self.marks.as_slice().get(k) {
            Some(mark) => *mark,
            None => Mark::Absent,
        }
    }

    /// The bytes from `low` on that are held alike, as far as the chunk and `high`.
    pub(crate) fn run(&self, low: usize, high: usize) -> Run
        requires order { low < high }
        requires room { high ≤ length self.now }
        ensures some { low < result.end }
        ensures within { result.end ≤ high }
        ensures one { result.end ≤ 4096 * (low / 4096) + 4096 }
        ensures alike { (k : ℕ) → low ≤ k → k < result.end → mark_at self.now k ≡ result.mark }
    {
        let _size = self.size;
        let end = low + (high - low).min(CHUNK - low % CHUNK);
        match self.alike[low / CHUNK] {
            Some(mark) => Run { mark, end },
            None => scan(self.marks.as_slice(), low, end),
        }
    }

    /// Marks bytes of one chunk alike.
    pub(crate) fn set(&mut self, low: usize, high: usize, mark: Mark)
        requires order { low < high }
        requires room { high ≤ length self.old }
        requires one { high ≤ 4096 * (low / 4096) + 4096 }
        ensures len { length self.new ≡ length self.old }
        ensures marks { (k : ℕ)
            → mark_at self.new k ≡ (if is_between low high k then mark else mark_at self.old k) }
    {
        let chunk = low / CHUNK;
        let start = chunk * CHUNK;
        let end = start + CHUNK.min(self.size - start);
        reach(&mut self.marks, end);
        mark_all(&mut self.marks[low..high], mark);
        self.alike[chunk] = of_all(
            mark,
            Span { low, high },
            Span {
                low: start,
                high: end,
            },
        );
    }

    /// Marks bytes alike, of however many chunks.
    pub(crate) fn set_all(&mut self, low: usize, high: usize, mark: Mark)
        requires order { low ≤ high }
        requires room { high ≤ length self.old }
        ensures len { length self.new ≡ length self.old }
        ensures marks { (k : ℕ)
            → mark_at self.new k ≡ (if is_between low high k then mark else mark_at self.old k) }
    {
        let mut done = low;
        while done < high {
            let end = done + (high - done).min(CHUNK - done % CHUNK);
            self.set(done, end, mark);
            done = end;
        }
    }

    /// Marks the bytes of a run as they are held when this has been done with them.
    pub(crate) fn turn(&mut self, turn: Turn, low: usize, run: Run)
        requires order { low < run.end }
        requires room { run.end ≤ length self.old }
        requires one { run.end ≤ 4096 * (low / 4096) + 4096 }
        requires alike { (k : ℕ) → low ≤ k → k < run.end → mark_at self.old k ≡ run.mark }
        ensures len { length self.new ≡ length self.old }
        ensures marks { (k : ℕ) → mark_at self.new k
            ≡ (if is_between low run.end k then mark_after turn run.mark else mark_at self.old k) }
    {
        let mark = mark_after(turn, run.mark);
        if mark == run.mark {
            self.note(low, run);
        } else {
            self.set(low, run.end, mark);
        }
    }

    /// Notes that the bytes of a run are held alike, if they are all of a chunk.
    pub(crate) fn note(&mut self, low: usize, run: Run)
        requires order { low < run.end }
        requires room { run.end ≤ length self.old }
        requires one { run.end ≤ 4096 * (low / 4096) + 4096 }
        requires alike { (k : ℕ) → low ≤ k → k < run.end → mark_at self.old k ≡ run.mark }
        ensures { self.new ≡ self.old }
    {
        let chunk = low / CHUNK;
        let start = chunk * CHUNK;
        let end = start + CHUNK.min(self.size - start);
        if low == start && run.end == end {
            self.alike[chunk] = Some(run.mark);
        }
    }
}

/// How a byte is held when this has been done with it.
fn mark_after(turn: Turn, mark: Mark) -> Mark
    ensures { result ≡ mark_after turn mark }
{
    match (turn, mark) {
        (Turn::WriteBack, Mark::Dirty) | (Turn::Load, Mark::Absent) => Mark::Clean,
        (Turn::Drop, Mark::Clean) | (Turn::Forget, _) => Mark::Absent,
        _ => mark,
    }
}

/// Fills up the marks that aren't there yet before `end`; there is room for them.
fn reach(marks: &mut Vec<Mark>, end: usize)
    requires { end ≤ vec_capacity marks.old }
    ensures items { marks.new.items
        ≡ marks.old.items ++ replicate (end - length marks.old.items) Mark.Absent }
    ensures capacity { vec_capacity marks.old ≤ vec_capacity marks.new }
{
    if marks.len() < end && marks.resize(end, Mark::Absent).is_err() {
        unreachable!()
    }
}

/// The mark of all bytes of a chunk of which these are marked alike, where that is known.
fn of_all(mark: Mark, marked: Span, chunk: Span) -> Option<Mark>
    ensures { (other : Mark) → result ≡ Some other
        → (mark ≡ other) × (marked.low ≡ chunk.low) × (marked.high ≡ chunk.high) }
{
    if marked.low == chunk.low && marked.high == chunk.high {
        Some(mark)
    } else {
        None
    }
}

/// The marks from `low` on that are alike, before `high`; those behind the last one are absent.
fn scan(marks: &[Mark], low: usize, high: usize) -> Run
    requires { low < high }
    ensures some { low < result.end }
    ensures within { result.end ≤ high }
    ensures alike { (k : ℕ) → low ≤ k → k < result.end → mark_at marks.now k ≡ result.mark }
{
    if low >= marks.len() {
        return Run {
            mark: Mark::Absent,
            end: high,
        };
    }
    let mark = marks[low];
    let most = high.min(marks.len());
    let mut end = low + 1;
    while end < most && marks[end] == mark {
        end += 1;
    }
    Run { mark, end }
}
