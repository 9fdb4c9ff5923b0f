use super::expect::expect;
use std::alloc::{AllocError, Global};
use std::process::Abort;
use std::test::Fail;
use vk_heap::Region;
use vk_map_cache::HostCache;

/// What is done with the bytes of a memory object and the copies of a cache, or asked of them.
enum Step {
    /// The host writes a byte at an offset.
    Write(u64, u8),
    /// The device does.
    DeviceWrite(u64, u8),
    /// The byte that the host reads at an offset.
    Read(u64, u8),
    /// The byte that the device reads there.
    DeviceRead(u64, u8),
    /// The atom of an offset is written back where it was written to.
    Flush(u64),
    /// It is forgotten.
    Invalidate(u64),
    /// An atom is loaded.
    Load(u64),
    /// An atom is written back, and forgotten.
    Evict(u64),
    /// An atom is evicted where it is held, and else loaded.
    TurnOver(u64),
    /// So many bytes from an offset on are forgotten.
    Drop(u64, u64),
}

static BY_ATOMS: [Step; 11] = [
    Step::Write(0, 0xaa),
    Step::Read(0, 0xaa),
    Step::Invalidate(0),
    Step::Read(0, 0xcd),
    Step::Write(0, 0xaa),
    Step::Flush(0),
    Step::Invalidate(0),
    Step::Read(0, 0xaa),
    Step::Load(1),
    Step::DeviceWrite(64, 0x01),
    Step::Read(64, 0xcd),
];

/// The second atom has 36 bytes: it ends with the object, which has 100.
static EVICTING_AND_DROPPING: [Step; 15] = [
    Step::Write(99, 0xaa),
    Step::DeviceWrite(98, 0x01),
    Step::Evict(1),
    Step::DeviceRead(98, 0x01),
    Step::DeviceRead(99, 0xaa),
    Step::Write(99, 0xbb),
    Step::TurnOver(1),
    Step::DeviceWrite(98, 0x02),
    Step::DeviceWrite(99, 0xcc),
    Step::Read(98, 0x01),
    Step::Read(99, 0xcc),
    Step::Write(0, 0xdd),
    Step::Drop(1, 98),
    Step::Read(0, 0xcd),
    Step::Read(98, 0x02),
];

/// Does a step at an offset within the object.
fn follow_at(
    rt: &impl Abort,
    cache: &mut HostCache,
    region: &mut Region,
    at: u64,
    step: &Step,
) -> Result<(), AllocError> {
    assert!(rt; at < region.size());
    let mut byte = [0; 1];
    match step {
        Step::Write(_, byte) => cache.write(0, region, at, &[*byte])?,
        Step::DeviceWrite(_, byte) => region.write(at, &[*byte]),
        Step::Read(_, wanted) => {
            cache.read(0, region, at, &mut byte);
            expect(rt, at, byte[0], *wanted);
        }
        Step::DeviceRead(_, wanted) => {
            region.read(at, &mut byte);
            expect(rt, at, byte[0], *wanted);
        }
        Step::Flush(_) => cache.flush(0, region, at, 1),
        _ => cache.invalidate(0, at, 1),
    }
    Ok(())
}

/// Does these steps on an object of so many bytes, and expects what they say.
fn follow(rt: &impl Abort, alloc: Global, size: u64, steps: &[Step]) -> Result<(), AllocError> {
    assert!(rt; size > 0);
    let mut region = Region::new(alloc, size)?;
    let mut cache = HostCache::new(alloc);
    follow_steps(rt, &mut cache, &mut region, steps)
}

fn follow_steps(
    rt: &impl Abort,
    cache: &mut HostCache,
    region: &mut Region,
    steps: &[Step],
) -> Result<(), AllocError> {
    for step in steps {
        match step {
            Step::Load(atom) => cache.load(0, region, *atom)?,
            Step::Evict(atom) => cache.evict(0, region, *atom),
            Step::TurnOver(atom) => cache.turn_over(0, region, *atom)?,
            Step::Drop(at, len) => {
                assert!(rt; *at < 100 && *len < 100);
                cache.drop_range(0, *at, *len);
            }
            Step::Write(at, _)
            | Step::DeviceWrite(at, _)
            | Step::Read(at, _)
            | Step::DeviceRead(at, _)
            | Step::Flush(at)
            | Step::Invalidate(at) => follow_at(rt, cache, region, *at, step)?,
        }
    }
    Ok(())
}

#[test]
fn host_cache(rt: HostRuntime) -> Result<(), Fail> {
    follow(&rt, rt.alloc(), 128, &BY_ATOMS)?;
    follow(&rt, rt.alloc(), 100, &EVICTING_AND_DROPPING)?;
    Ok(())
}
