ghost use Rattle.std.specs.Prelude.{◌≤◌, ◌^◌};

use std::fmt;

/// What is done over and over.
#[derive(Clone, Copy, Debug, PartialEq, Eq)]
pub enum Work {
    /// A region is copied to another one.
    Copy,
    /// The first half of a region is copied to its second half.
    Within,
    /// A region is filled with a word.
    Fill,
    /// Bytes of the host are written to a region.
    Write,
    /// They are read from it.
    Read,
    /// They are written to the host's cache.
    CacheWrite,
    /// What is dirty in the cache is written back.
    CacheFlush,
    /// Bytes are read through the cache.
    CacheRead,
}

/// Each sort of work.
pub const ALL: [Work; 8] = [
    Work::Copy,
    Work::Within,
    Work::Fill,
    Work::Write,
    Work::Read,
    Work::CacheWrite,
    Work::CacheFlush,
    Work::CacheRead,
];

/// As the command line names it.
impl fmt::Display for Work {
    fn fmt<W: fmt::Write>(&self, f: &mut fmt::Formatter<W>) -> fmt::Result {
        f.write_str(match self {
            Work::Copy => "copy",
            Work::Within => "within",
            Work::Fill => "fill",
            Work::Write => "write",
            Work::Read => "read",
            Work::CacheWrite => "cache-write",
            Work::CacheFlush => "cache-flush",
            Work::CacheRead => "cache-read",
        })
    }
}

/// What is reported of the turns.
#[derive(Clone, Copy, Debug, PartialEq, Eq)]
pub enum Report {
    /// A sum of the bytes in the end.
    Sum,
    /// It, and how long they took.
    Times,
}

/// What the arguments ask for.
#[derive(Clone, Copy, Debug)]
pub struct Plan {
    /// What is done; all sorts one after another where none is named.
    pub work: Option<Work>,
    /// What is reported of it.
    pub report: Report,
    /// The bytes of a region.
    pub bytes: u64,
    /// How many turns are made.
    pub turns: u32,
    ghost some: { 8 ≤ bytes },
    ghost bound: { bytes ≤ 2 ^ 30 },
}
