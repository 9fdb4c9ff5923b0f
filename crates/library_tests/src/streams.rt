//! Readers and writers that fail.

use super::expect::expect;
use super::runs::table::{Ending, FILL_AND_READ, NO_MEMORY, REPLAYED};
use super::runs::{config, ran_out};
use std::alloc::Global;
use std::io;
use std::io::{ErrorKind, Read, Write};
use std::process::Abort;
use vk_model::First;
use vk_run::{QueueCaches, run};
use vk_trace::{RunError, Watched};

/// Gives its bytes, 16 at most in each read, and an error after some reads.
#[derive(Drop)]
struct FailingReader<'a> {
    bytes: &'a [u8],
    reads: usize,
}

impl Read for FailingReader<'_> {
    fn read(&mut self, buf: &mut [u8]) -> io::Result<usize> {
        if self.reads == 0 {
            return Err(io::Error::from(ErrorKind::Other));
        }
        self.reads -= 1;
        let bytes = self.bytes;
        let n = bytes.len().min(buf.len()).min(16);
        buf[..n].copy_from_slice(&bytes[..n]);
        self.bytes = &bytes[n..];
        Ok(n)
    }
}

/// Takes some bytes, 3 at most in each write, and then answers an error or takes none.
#[derive(Drop)]
struct ShortWriter {
    taken: [u8; 16],
    count: usize,
    room: usize,
    fails: bool,
}

impl ShortWriter {
    fn new(room: usize, fails: bool) -> ShortWriter {
        ShortWriter {
            taken: [0; 16],
            count: 0,
            room,
            fails,
        }
    }
}

impl Write for ShortWriter {
    fn write(&mut self, buf: &[u8]) -> io::Result<usize> {
        let room = self.room.min(16);
        let start = self.count.min(room);
        let n = buf.len().min(room - start).min(3);
        if n == 0 && self.fails {
            return Err(io::Error::from(ErrorKind::Other));
        }
        self.taken[start..start + n].copy_from_slice(&buf[..n]);
        self.count = start + n;
        Ok(n)
    }

    fn flush(&mut self) -> io::Result<()> {
        if self.fails {
            return Err(io::Error::from(ErrorKind::Other));
        }
        Ok(())
    }
}

/// Runs over a reader that fails: how that ended, whether the reader failed, and what was written.
fn run_failing_reader(alloc: Global, reads: usize) -> (Ending, bool, Vec<u8>) {
    let bytes = FILL_AND_READ.as_bytes();
    let mut reader = Watched::new(FailingReader { bytes, reads });
    let mut writer = Watched::new(Vec::new(alloc));
    let ending = run(
        alloc,
        &mut reader,
        &mut writer,
        config(),
        QueueCaches::Without,
        &mut First,
    );
    (ending, reader.failed(), writer.into_inner())
}

/// Expects `ReadFault` where the reader fails, and that nothing is written then.
fn expect_read_error(rt: &impl Abort, alloc: Global, reads: usize) {
    let (mut ending, mut failed, mut written) = run_failing_reader(alloc, reads);
    if ran_out(ending) {
        assert!(rt; written.is_empty());
        (ending, failed, written) = run_failing_reader(alloc, reads);
    }
    // The text comes in 14 reads, and one more finds the end.
    let fails = reads < 15;
    let wanted = if fails {
        Err(RunError::ReadFault)
    } else {
        REPLAYED
    };
    let got = (ending, failed, written.is_empty());
    expect(rt, reads, got, (wanted, fails, fails));
}

/// Runs over a writer with this much room: how that ended, whether the writer failed, and the writer.
fn run_short_writer(alloc: Global, room: usize, fails: bool) -> (Ending, bool, ShortWriter) {
    let mut reader = Watched::new(FILL_AND_READ.as_bytes());
    let mut writer = Watched::new(ShortWriter::new(room, fails));
    let ending = run(
        alloc,
        &mut reader,
        &mut writer,
        config(),
        QueueCaches::Without,
        &mut First,
    );
    (ending, writer.failed(), writer.into_inner())
}

/// Expects `WriteFault` where the writer has no room for the whole text, and that it has its front.
fn expect_write_error(rt: &impl Abort, alloc: Global, room: usize, fails: bool) {
    let output = b"5 01020304\n";
    let (mut ending, mut failed, mut writer) = run_short_writer(alloc, room, fails);
    if ending == NO_MEMORY {
        expect(rt, room, writer.count, 0);
        (ending, failed, writer) = run_short_writer(alloc, room, fails);
    }
    let held = room.min(output.len());
    let is_short = room < output.len();
    let wanted = if is_short {
        Err(RunError::WriteFault(room as u64))
    } else {
        REPLAYED
    };
    let got = (ending, failed, writer.count);
    expect(rt, room, got, (wanted, is_short, held));
    expect(rt, room, &writer.taken[..held], &output[..held]);
}

#[test]
fn reads_and_writes_fail(rt: HostRuntime) {
    let alloc = rt.alloc();
    for reads in 0..17 {
        expect_read_error(&rt, alloc, reads);
    }
    for room in 0..13 {
        expect_write_error(&rt, alloc, room, true);
        expect_write_error(&rt, alloc, room, false);
    }
}

/// A failed flush is kept, and no other.
#[test]
fn a_flush_fails(rt: HostRuntime) {
    for fails in [true, false] {
        let mut writer = Watched::new(ShortWriter::new(0, fails));
        let has_failed = writer.flush().is_err();
        expect(
            &rt,
            "a flush",
            (has_failed, writer.failed()),
            (fails, fails),
        );
    }
}
