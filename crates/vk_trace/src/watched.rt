ghost use Rattle.std.specs.Prelude.{◌≡◌, ◌↔◌, ◌⊎◌, IsTrue, IsErr, Ok, false};
ghost use Rattle.vk_trace.specs.Watching.{counted};
ghost use Rattle.std.specs.Io.{ReadsAtMost, WritesAtMost};
ghost use Rattle.std.specs.Io.KnownBytes.{ReadConsumes, WriteAppends, Keeps};

use std::io;
use std::io::{Read, Write};
use std::marker::Model;

/// Passes on the calls of a reader or a writer, counts them, and keeps whether one of them failed:
/// answered an error, or took no byte of a write. Contracts see all three as a record.
#[derive(Drop)]
pub struct Watched<T> {
    inner: T,
    failed: bool,
    calls: u64,
}

impl<T> Model for Watched<T> {
    ghost use Rattle.vk_trace.specs.Watching.{Watching};

    ghost Value = { Watching T };

    ghost view = { λ w. record { inner = w.inner; failed = w.failed; calls = w.calls } };
}

impl<T> Watched<T> {
    /// Watches a reader or a writer, of which no call was made so far.
    pub fn new(inner: T) -> Self
        ensures { result ≡ record { inner = inner; failed = false; calls = 0 } }
    {
        Watched {
            inner,
            failed: false,
            calls: 0,
        }
    }

    /// Whether a call failed.
    pub fn failed(&self) -> bool
        ensures { result ≡ self.now.failed }
    {
        self.failed
    }

    /// How many calls were made; from 2^64 - 1 on it stays.
    pub fn calls(&self) -> u64
        ensures { result ≡ self.now.calls }
    {
        self.calls
    }

    /// The reader or the writer, as the calls left it.
    pub fn into_inner(self) -> T
        ensures { result ≡ self.inner }
    {
        self.inner
    }
}

impl<R: Read> Read for Watched<R> {
    ghost remaining = { λ w. R.remaining w.inner };

    fn read(&mut self, buf: &mut [u8]) -> io::Result<usize>
        ensures bound { ReadsAtMost result buf.new }
        ensures bytes { ReadConsumes (R.remaining self.old.inner) (R.remaining self.new.inner) result buf.new }
        ensures failed { IsTrue self.new.failed ↔ (IsTrue self.old.failed ⊎ IsErr result) }
        ensures calls { self.new.calls ≡ counted self.old.calls 1 }
    {
        let outcome = self.inner.read(buf);
        self.calls = self.calls.saturating_add(1);
        if outcome.is_err() {
            self.failed = true;
        }
        outcome
    }
}

impl<W: Write> Write for Watched<W> {
    ghost contents = { λ w. W.contents w.inner };

    fn write(&mut self, buf: &[u8]) -> io::Result<usize>
        ensures bound { WritesAtMost result buf.now }
        ensures bytes { WriteAppends (W.contents self.old.inner) (W.contents self.new.inner) result buf.now }
        ensures failed { IsTrue self.new.failed ↔ (IsTrue self.old.failed ⊎ IsErr result ⊎ (result ≡ Ok 0)) }
        ensures calls { self.new.calls ≡ counted self.old.calls 1 }
    {
        let outcome = self.inner.write(buf);
        self.calls = self.calls.saturating_add(1);
        if matches!(&outcome, Err(_) | Ok(0)) {
            self.failed = true;
        }
        outcome
    }

    fn flush(&mut self) -> io::Result<()>
        ensures bytes { Keeps (W.contents self.old.inner) (W.contents self.new.inner) }
        ensures failed { IsTrue self.new.failed ↔ (IsTrue self.old.failed ⊎ IsErr result) }
        ensures calls { self.new.calls ≡ counted self.old.calls 1 }
    {
        let outcome = self.inner.flush();
        self.calls = self.calls.saturating_add(1);
        if outcome.is_err() {
            self.failed = true;
        }
        outcome
    }
}
