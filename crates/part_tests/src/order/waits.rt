//! A wait of the host.

use super::drawn::{Drawn, Happening};
use super::points_of;
use crate::expect::expect;
use std::alloc::{AllocError, Global};
use std::process::Abort;
use std::test::Fail;
use vk_model::{Entry, SemaphoreValue, Sequence};
use vk_order::Points;

fn by_host(number: usize, entry: Entry) -> Drawn {
    Drawn {
        entry: number,
        batch: 0,
        place: 0,
        queue: 0,
        happening: Happening::Host(entry),
    }
}

/// A semaphore, a signal, and a wait for a lesser value.
fn signalled(alloc: Global) -> Result<[Drawn; 3], AllocError> {
    let value = SemaphoreValue {
        semaphore: 1,
        value: 5,
    };
    let waits = Vec::from_array(alloc, [value])?;
    let signal = Entry::Signal {
        semaphore: 1,
        value: 7,
    };
    let wait = Entry::Wait {
        waits: Sequence::new(waits),
    };
    Ok([
        by_host(0, Entry::Semaphore { id: 1, initial: 0 }),
        by_host(1, signal),
        by_host(2, wait),
    ])
}

fn expect_order(rt: &impl Abort, points: &Points<'_>) -> Result<(), AllocError> {
    assert!(rt; points.len() == 3);
    let before = (points.before(1, 2), points.before(2, 1));
    expect(rt, "the signal is before the wait", before, (true, false));
    let led = points.edges(1)?;
    expect(rt, "edges", led.as_slice(), &[2]);
    Ok(())
}

fn expect_wait(rt: &impl Abort, alloc: Global) -> Result<(), AllocError> {
    let drawn = signalled(alloc)?;
    let points = points_of(alloc, &drawn)?;
    expect_order(rt, &points)
}

#[test]
fn a_wait_comes_after_its_signal(rt: HostRuntime) -> Result<(), Fail> {
    expect_wait(&rt, rt.alloc())?;
    Ok(())
}
