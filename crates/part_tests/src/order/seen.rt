//! What an access of a byte sees: ranges of barriers, and flushes of host writes.

use super::drawn::{Drawn, Happening};
use super::points_of;
use crate::expect::expect;
use std::alloc::{AllocError, Global};
use std::test::Fail;
use vk_model::{
    Accesses, BufferElement, Cmd, Dependency, Element, Entry, Families, Length, Sequence, Stages,
};
use vk_order::{Access, Byte, ByteAccess, Points};

fn at(entry: usize, happening: Happening) -> Drawn {
    Drawn {
        entry,
        batch: 0,
        place: 0,
        queue: 0,
        happening,
    }
}

fn fill() -> Drawn {
    let fill = Cmd::Fill {
        buffer: 1,
        offset: 0,
        size: Length::Whole,
        word: 7,
    };
    at(2, Happening::Run(fill))
}

/// Whether the last point's read of a byte of the buffer sees what the first one wrote.
fn last_sees(
    alloc: Global,
    drawn: &[Drawn],
    byte: u64,
    is_cached: bool,
) -> Result<bool, AllocError> {
    let points = points_of(alloc, drawn)?;
    last_sees_in(&points, byte, is_cached)
}

fn last_sees_in(points: &Points<'_>, byte: u64, is_cached: bool) -> Result<bool, AllocError> {
    let count = points.len();
    if count == 0 {
        return Ok(false);
    }
    let access = ByteAccess {
        byte: Byte::Buffer {
            buffer: 1,
            at: byte,
        },
        access: Access::Read,
        is_cached,
    };
    points.seen(0, count - 1, access)
}

/// A barrier of transfers on the first 16 bytes of the buffer.
const BARRIER: Element = Element::Buffer(BufferElement {
    dependency: Dependency {
        source_stages: Stages::TRANSFER,
        source_accesses: Accesses::TRANSFER_WRITE,
        destination_stages: Stages::TRANSFER,
        destination_accesses: Accesses::TRANSFER_READ,
    },
    families: Families {
        source: 0,
        destination: 0,
    },
    buffer: 1,
    offset: 0,
    size: Length::Bytes(16),
});

fn barrier(alloc: Global) -> Result<Drawn, AllocError> {
    let elements = Vec::from_array(alloc, [BARRIER])?;
    let barrier = Cmd::Barrier {
        elements: Sequence::new(elements),
    };
    Ok(at(2, Happening::Run(barrier)))
}

/// Whether a fill after the barrier sees one before it, at a byte.
fn sees_before_barrier(alloc: Global, byte: u64) -> Result<bool, AllocError> {
    let drawn = [fill(), barrier(alloc)?, fill()];
    last_sees(alloc, &drawn, byte, false)
}

#[test]
fn a_barrier_makes_its_range_visible(rt: HostRuntime) -> Result<(), Fail> {
    for (byte, sees) in [(15, true), (16, false)] {
        expect(&rt, byte, sees_before_barrier(rt.alloc(), byte)?, sees);
    }
    Ok(())
}

fn write(alloc: Global) -> Result<Drawn, AllocError> {
    let bytes = Vec::from_array(alloc, [9])?;
    let write = Entry::Write {
        buffer: 1,
        offset: 100,
        bytes: Sequence::new(bytes),
    };
    Ok(at(0, Happening::Host(write)))
}

fn flush(entry: usize) -> Drawn {
    let flush = Entry::Flush {
        buffer: 1,
        offset: 64,
        size: Length::Bytes(1),
    };
    at(entry, Happening::Host(flush))
}

fn submit(alloc: Global) -> Drawn {
    let submit = Entry::Submit {
        queue: 0,
        batches: Sequence::new(Vec::new(alloc)),
    };
    at(2, Happening::Host(submit))
}

/// Whether a fill sees a write by the host that is flushed before the fill is submitted.
fn sees_early_flush(alloc: Global, is_cached: bool) -> Result<bool, AllocError> {
    let drawn = [write(alloc)?, flush(1), submit(alloc), fill()];
    last_sees(alloc, &drawn, 100, is_cached)
}

/// The same where it is flushed after that.
fn sees_late_flush(alloc: Global, is_cached: bool) -> Result<bool, AllocError> {
    let drawn = [write(alloc)?, submit(alloc), flush(3), fill()];
    last_sees(alloc, &drawn, 100, is_cached)
}

#[test]
fn a_write_by_the_host_is_flushed_before_its_submit(rt: HostRuntime) -> Result<(), Fail> {
    let early = sees_early_flush(rt.alloc(), true)?;
    let late = sees_late_flush(rt.alloc(), true)?;
    let uncached = sees_late_flush(rt.alloc(), false)?;
    expect(&rt, "visible", (early, late, uncached), (true, false, true));
    Ok(())
}
