use super::expect::expect;
use std::alloc::{AllocError, Global};
use std::process::Abort;
use std::test::Fail;
use vk_heap::{Budget, Region};
use vk_memory::{Memories, MemoryError};
use vk_model::Config;

/// The bytes of a new region, and those that are filled and written.
fn region_bytes(alloc: Global) -> Result<([u8; 4], [u8; 4]), AllocError> {
    let mut region = Region::new(alloc, 4)?;
    let mut fresh = [0u8; 4];
    region.read(0, &mut fresh);
    region.fill(0, 1, 67_305_985);
    region.write(3, &[9]);
    let mut written = [0u8; 4];
    region.read(0, &mut written);
    Ok((fresh, written))
}

#[test]
fn a_region_and_a_budget(rt: HostRuntime) -> Result<(), Fail> {
    let bytes = region_bytes(rt.alloc())?;
    expect(&rt, "the bytes", bytes, ([0xcd; 4], [1, 2, 3, 9]));
    let mut budget = Budget::new(3);
    assert!(rt; budget.take(3).is_ok());
    assert!(rt; budget.take(1).is_err());
    budget.give(1);
    expect(&rt, "what is taken", budget.used(), 2);
    Ok(())
}

/// Heaps of 64 KiB.
fn config() -> Config {
    match Config::new(65_536, 65_536) {
        Some(config) => config,
        None => unreachable!(),
    }
}

/// Fills a heap, and maps the object there: what is taken of both heaps.
fn full(rt: &impl Abort, alloc: Global) -> (u64, u64) {
    let mut memories = Memories::new(alloc, config());
    assert!(rt; memories.allocate(1, 65_536) == Ok(0));
    assert!(rt; memories.allocate(1, 1) == Err(MemoryError::NoRoom));
    let used = (memories.used(1), memories.used(0));
    assert!(rt; memories.map(0).is_ok());
    assert!(rt; memories.map(0).is_err());
    used
}

/// Copies bytes within an object and into another one: the numbers of both, and the bytes there.
fn copied(alloc: Global) -> Result<(u64, u64, [u8; 4]), MemoryError> {
    let mut memories = Memories::new(alloc, config());
    let first = memories.allocate(0, 8)?;
    let second = memories.allocate(1, 4)?;
    memories.region_mut(first).write(0, &[1, 2, 3, 4]);
    memories.copy(first, 0, first, 1, 4);
    memories.copy(first, 2, second, 0, 3);
    let mut bytes = [0u8; 4];
    memories.region(second).read(0, &mut bytes);
    Ok((first, second, bytes))
}

/// Maps an object, unmaps it and frees it: what is taken then.
fn freed(rt: &impl Abort, alloc: Global) -> u64 {
    let mut memories = Memories::new(alloc, config());
    assert!(rt; memories.allocate(0, 65_536) == Ok(0));
    assert!(rt; memories.unmap(0).is_err());
    assert!(rt; memories.map(0).is_ok());
    assert!(rt; memories.unmap(0).is_ok());
    memories.free(0);
    let used = memories.used(0);
    assert!(rt; memories.allocate(0, 65_536) == Ok(1));
    used
}

#[test]
fn objects(rt: HostRuntime) -> Result<(), Fail> {
    expect(&rt, "full", full(&rt, rt.alloc()), (65_536, 0));
    let bytes = copied(rt.alloc())?;
    expect(&rt, "copied", bytes, (0, 1, [2, 3, 4, 0xcd]));
    expect(&rt, "freed", freed(&rt, rt.alloc()), 0);
    Ok(())
}
