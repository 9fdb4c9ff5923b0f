//! The limits of a trace, and the text of a refusal.

use super::expect::expect;
use super::runs::run_bytes;
use super::runs::table::{Ending, REFUSED, REPLAYED};
use itoa::Buffer;
use std::alloc::{AllocError, Global};
use std::process::Abort;
use std::test::Fail;
use vk_model::{At, Rule};
use vk_trace::{Outcome, RunError, text};

fn push_semaphore(trace: &mut String, id: u32) -> Result<(), AllocError> {
    trace.push_str("[\"semaphore\",")?;
    trace.push_str(Buffer::new().format(id))?;
    trace.push_str(",0]")
}

/// A trace of semaphores with the ids from 0 on.
fn semaphores(alloc: Global, count: u32) -> Result<String, AllocError> {
    let mut trace = String::new(alloc);
    for id in 0..count {
        trace.push_str(if id == 0 { "[" } else { "," })?;
        push_semaphore(&mut trace, id)?;
    }
    trace.push_str("]")?;
    Ok(trace)
}

/// A text, followed by blanks up to this many bytes.
fn blanks(alloc: Global, text: &str, size: usize) -> Result<Vec<u8>, AllocError> {
    let mut trace = Vec::new(alloc);
    trace.extend_from_slice(text.as_bytes())?;
    trace.resize(size, b' ')?;
    Ok(trace)
}

/// Traces of so many semaphores, with what is written and how they end.
static SEMAPHORES: [(u32, &str, Ending); 2] = [
    (131_072, "", REPLAYED),
    (131_073, "refused 131072 LIMIT\n", REFUSED),
];

/// Texts of so many bytes, and how they end.
static SIZES: [(&str, usize, Ending); 3] = [
    ("[]", 16_777_216, REPLAYED),
    ("[]", 16_777_217, Err(RunError::TooLong)),
    ("]", 16_777_217, Err(RunError::TooLong)),
];

fn expect_semaphores(rt: &impl Abort, alloc: Global) -> Result<(), AllocError> {
    for (count, output, ending) in &SEMAPHORES {
        let trace = semaphores(alloc, *count)?;
        let (got, written) = run_bytes(alloc, trace.as_bytes());
        expect(rt, *count, got, *ending);
        expect(rt, *count, written.as_slice(), output.as_bytes());
    }
    Ok(())
}

fn expect_sizes(rt: &impl Abort, alloc: Global) -> Result<(), AllocError> {
    for (text, size, ending) in &SIZES {
        let trace = blanks(alloc, text, *size)?;
        expect(rt, *size, run_bytes(alloc, &trace).0, *ending);
    }
    Ok(())
}

#[test]
fn most_semaphores(rt: HostRuntime) -> Result<(), Fail> {
    expect_semaphores(&rt, rt.alloc())?;
    Ok(())
}

#[test]
fn longest_texts(rt: HostRuntime) -> Result<(), Fail> {
    expect_sizes(&rt, rt.alloc())?;
    Ok(())
}

#[test]
fn a_refusal(rt: HostRuntime) -> Result<(), Fail> {
    let refusal = Outcome::Refused(At::Wait(1, 0, 2), Rule::WaitBeforeSignal);
    let written = text(rt.alloc(), &refusal)?;
    let wanted = "refused 1.0.w2 WAIT_BEFORE_SIGNAL\n";
    expect(&rt, "a refusal", written.as_str(), wanted);
    Ok(())
}
