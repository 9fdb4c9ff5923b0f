ghost use Rattle.std.specs.Prelude.{◌≡◌, length};
ghost use Rattle.vk_map_cache.specs.Holdings.{object_in};

use super::expect::expect;
use std::alloc::{AllocError, Global};
use std::process::Abort;
use std::test::Fail;
use vk_heap::Region;
use vk_map_cache::{Mark, QueueCache};

/// What is done with the first bytes of a memory object and with what a queue's cache holds of them,
/// and what is seen then.
struct Row {
    step: Step,
    /// How the first byte is held.
    held: Mark,
    /// What the region has.
    region: [u8; 4],
    /// What the queue reads.
    read: [u8; 4],
}

/// What is done.
enum Step {
    /// The queue writes 01020304.
    Write,
    /// All that is dirty is written back.
    WriteBack,
    /// The first byte of the region is set.
    Set(u8),
    /// Copies are dropped.
    DropClean,
    /// What isn't held is loaded.
    Load,
    /// All is forgotten.
    Forget,
}

static ROWS: [Row; 7] = [
    Row {
        step: Step::Write,
        held: Mark::Dirty,
        region: [0xcd, 0xcd, 0xcd, 0xcd],
        read: [1, 2, 3, 4],
    },
    Row {
        step: Step::WriteBack,
        held: Mark::Clean,
        region: [1, 2, 3, 4],
        read: [1, 2, 3, 4],
    },
    Row {
        step: Step::Set(9),
        held: Mark::Clean,
        region: [9, 2, 3, 4],
        read: [1, 2, 3, 4],
    },
    Row {
        step: Step::DropClean,
        held: Mark::Absent,
        region: [9, 2, 3, 4],
        read: [9, 2, 3, 4],
    },
    Row {
        step: Step::Load,
        held: Mark::Clean,
        region: [9, 2, 3, 4],
        read: [9, 2, 3, 4],
    },
    Row {
        step: Step::Set(10),
        held: Mark::Clean,
        region: [10, 2, 3, 4],
        read: [9, 2, 3, 4],
    },
    Row {
        step: Step::Forget,
        held: Mark::Absent,
        region: [10, 2, 3, 4],
        read: [10, 2, 3, 4],
    },
];

/// Does a step on an object of four bytes.
fn follow(cache: &mut QueueCache, region: &mut Region, step: &Step)
    requires room { length (object_in cache.old 0) ≡ 4 }
    requires size { length region.old ≡ 4 }
    ensures room { length (object_in cache.new 0) ≡ 4 }
    ensures size { length region.new ≡ 4 }
{
    match step {
        Step::Write => cache.write(0, 0, &[1, 2, 3, 4]),
        Step::WriteBack => cache.write_back(0, region, 0, 4),
        Step::Set(byte) => region.write(0, &[*byte]),
        Step::DropClean => cache.drop_clean(0, 0, 4),
        Step::Load => cache.load(0, region, 0, 4),
        Step::Forget => cache.forget(0, 0, 4),
    }
}

/// Expects what a row says is seen.
fn see(rt: &impl Abort, cache: &QueueCache, region: &Region, row: &Row)
    requires room { length (object_in cache.now 0) ≡ 4 }
    requires size { length region.now ≡ 4 }
{
    let mut there = [0; 4];
    region.read(0, &mut there);
    let mut read = [0; 4];
    cache.read(0, region, 0, &mut read);
    let seen = (cache.held(0, 0), there, read);
    expect(
        rt,
        "a queue's cache",
        seen,
        (row.held, row.region, row.read),
    );
}

/// Follows the rows on an object of four bytes.
fn follow_all(rt: &impl Abort, alloc: Global) -> Result<(), AllocError> {
    let mut region = Region::new(alloc, 4)?;
    let mut cache = QueueCache::new(alloc);
    cache.add(0, 4)?;
    for row in &ROWS {
        follow(&mut cache, &mut region, &row.step);
        see(rt, &cache, &region, row);
    }
    cache.remove(0);
    Ok(())
}

#[test]
fn queue_cache(rt: HostRuntime) -> Result<(), Fail> {
    follow_all(&rt, rt.alloc())?;
    Ok(())
}
