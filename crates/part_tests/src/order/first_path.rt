//! The order of a fill and of a host read after it, with a barrier between and without.

use super::drawn::{Drawn, Happening};
use super::points_of;
use crate::expect::expect;
use std::alloc::{AllocError, Global};
use std::process::Abort;
use std::test::Fail;
use vk_model::{
    Accesses, BufferInfo, Cmd, Dependency, Element, Entry, Length, Place, SemaphoreSubmit,
    SemaphoreValue, Sequence, Sharing, Stages, Usage,
};
use vk_order::{Access, Byte, ByteAccess, Points};

fn at(entry: usize, happening: Happening) -> Drawn {
    Drawn {
        entry,
        batch: 0,
        place: 0,
        queue: 0,
        happening,
    }
}

fn buffer() -> Happening {
    let info = BufferInfo {
        size: 16,
        usage: Usage(3),
        sharing: Sharing::Exclusive,
        place: Place::Dedicated { memory_type: 1 },
    };
    Happening::Host(Entry::Buffer { id: 1, info })
}

fn submit(alloc: Global) -> Happening {
    Happening::Host(Entry::Submit {
        queue: 0,
        batches: Sequence::new(Vec::new(alloc)),
    })
}

fn fill() -> Happening {
    Happening::Run(Cmd::Fill {
        buffer: 1,
        offset: 0,
        size: Length::Bytes(16),
        word: 67_305_985,
    })
}

/// A barrier from writes of transfers to reads of the host.
fn barrier(alloc: Global) -> Result<Happening, AllocError> {
    let element = Element::Memory(Dependency {
        source_stages: Stages::TRANSFER,
        source_accesses: Accesses::TRANSFER_WRITE,
        destination_stages: Stages::HOST,
        destination_accesses: Accesses::HOST_READ,
    });
    let elements = Vec::from_array(alloc, [element])?;
    Ok(Happening::Run(Cmd::Barrier {
        elements: Sequence::new(elements),
    }))
}

fn signal() -> Happening {
    Happening::Signal(SemaphoreSubmit {
        semaphore: 2,
        value: 1,
        stages: Stages::ALL_COMMANDS,
    })
}

fn wait(alloc: Global) -> Result<Happening, AllocError> {
    let value = SemaphoreValue {
        semaphore: 2,
        value: 1,
    };
    let waits = Vec::from_array(alloc, [value])?;
    Ok(Happening::Host(Entry::Wait {
        waits: Sequence::new(waits),
    }))
}

/// The host makes a buffer and a semaphore and submits a fill.
fn submitted(alloc: Global) -> [Drawn; 4] {
    [
        at(0, buffer()),
        at(1, Happening::Host(Entry::Semaphore { id: 2, initial: 0 })),
        at(2, submit(alloc)),
        at(2, fill()),
    ]
}

/// It waits for a signal, maps the buffer and reads.
fn awaited(alloc: Global) -> Result<[Drawn; 4], AllocError> {
    let wait = wait(alloc)?;
    Ok([
        at(2, signal()),
        at(3, wait),
        at(4, Happening::Host(Entry::Map { buffer: 1 })),
        at(
            5,
            Happening::Host(Entry::Read {
                buffer: 1,
                offset: 0,
                size: 4,
            }),
        ),
    ])
}

/// All of this, with a barrier after the fill or without. The fill is node 3, and the read the last.
fn first_path(alloc: Global, with_barrier: bool) -> Result<Vec<Drawn>, AllocError> {
    let mut all = Vec::from_array(alloc, submitted(alloc))?;
    if with_barrier {
        all.push(at(2, barrier(alloc)?))?;
    }
    for drawn in awaited(alloc)? {
        all.push(drawn)?;
    }
    Ok(all)
}

const READ: ByteAccess = ByteAccess {
    byte: Byte::Buffer { buffer: 1, at: 0 },
    access: Access::Read,
    is_cached: false,
};

/// Expects that the read, which is the last of the nodes, is after the fill, whether it sees it, and to
/// what the fill leads.
fn expect_order(
    rt: &impl Abort,
    points: &Points<'_>,
    sees: bool,
    edges: &[usize],
) -> Result<(), AllocError> {
    let count = points.len();
    assert!(rt; count > 3);
    expect(rt, count, points.before(3, count - 1), true);
    expect(rt, count, points.seen(3, count - 1, READ)?, sees);
    let led = points.edges(3)?;
    expect(rt, count, led.as_slice(), edges);
    Ok(())
}

/// Expects the same of so many nodes.
fn expect_path(
    rt: &impl Abort,
    alloc: Global,
    count: usize,
    sees: bool,
    edges: &[usize],
) -> Result<(), AllocError> {
    let drawn = first_path(alloc, sees)?;
    let points = points_of(alloc, &drawn)?;
    expect(rt, "nodes", points.len(), count);
    expect_order(rt, &points, sees, edges)
}

/// A host read is after a fill that it waits for, and sees it where a barrier is between them.
#[test]
fn a_host_read_sees_a_fill_before_a_barrier(rt: HostRuntime) -> Result<(), Fail> {
    expect_path(&rt, rt.alloc(), 9, true, &[4, 5])?;
    expect_path(&rt, rt.alloc(), 8, false, &[4])?;
    Ok(())
}
