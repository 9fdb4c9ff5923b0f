ghost use Rattle.std.specs.Prelude.{◌≡◌, IfOk};
ghost use Rattle.vma_pools.specs.State.{Backs};

use super::expect::expect;
use super::stand::{
    Stand, cancel, end, fill, map, one_pool, put, rebind, reserve, spot, stats, unmap,
};
use std::alloc::Global;
use std::process::Abort;
use std::test::Fail;
use vk_memory::{MapState, MemoryError};
use vk_model::{Kind, Statistics};
use vma_pools::{Asked, PoolPlace};

/// What is in use where each second one of eight allocations of 1,024 bytes is left.
const HALF: Statistics = Statistics {
    blocks: 2,
    allocations: 4,
    used: 4096,
    held: 8192,
    largest_free: 1024,
};

/// What is done with the allocations of the pool, or asked of them.
enum Step {
    /// So many of 1,024 bytes are put there.
    Fill(u64),
    /// One is put there, with a size and an alignment: its number.
    Put(u64, u64, Kind, Result<u64, MemoryError>),
    /// One ends: the memory object that goes with it.
    End(u64, Option<u64>),
    /// The target of its move is reserved.
    Reserve(u64, Option<PoolPlace>),
    /// Its move is cancelled: the memory object that goes with the target.
    Cancel(u64, Option<u64>),
    /// Its move is made: the memory object that goes with its old place.
    Rebind(u64, Option<u64>),
    /// Its memory object, and where it starts there.
    Spot(u64, (u64, u64)),
    /// How much of the pool is in use.
    Stats(Statistics),
    /// Its blocks, the bytes of them that are used, and the longest free range.
    Size(usize, u64, u64),
    /// All allocations, by place, the last one first.
    ByPlace(&'static [u64]),
}

use Step::{ByPlace, Cancel, End, Fill, Put, Rebind, Reserve, Size, Spot, Stats};

/// Puts an allocation in the pool, where its size and its alignment are those of a request.
fn put_asked(
    rt: &impl Abort,
    stand: &mut Stand,
    size: u64,
    align: u64,
    kind: Kind,
) -> Result<u64, MemoryError>
    requires { Backs stand.old.pools stand.old.memories }
    ensures { Backs stand.new.pools stand.new.memories }
{
    assert!(rt; size > 0 && size % 16 == 0);
    assert!(rt; align == 16 || align == 64 || align == 256);
    put(stand, size, align, kind)
}

/// Does a step that may change the pool, and expects what it says.
fn follow(rt: &impl Abort, stand: &mut Stand, step: &Step) -> Result<(), &'static str>
    requires { Backs stand.old.pools stand.old.memories }
    ensures { Backs stand.new.pools stand.new.memories }
{
    match step {
        Fill(count) => fill(stand, *count),
        Put(size, align, kind, wanted) => {
            let got = put_asked(rt, stand, *size, *align, *kind);
            expect(rt, "an allocation", got, *wanted);
            Ok(())
        }
        End(allocation, wanted) => {
            expect(rt, "an end", end(stand, *allocation)?, *wanted);
            Ok(())
        }
        Reserve(allocation, wanted) => {
            expect(rt, "a target", reserve(stand, *allocation)?, *wanted);
            Ok(())
        }
        Cancel(allocation, wanted) => {
            expect(rt, "a cancel", cancel(stand, *allocation)?, *wanted);
            Ok(())
        }
        Rebind(allocation, wanted) => {
            expect(rt, "a move", rebind(stand, *allocation)?, *wanted);
            Ok(())
        }
        Spot(..) | Stats(_) | Size(..) | ByPlace(_) => look(rt, stand, step),
    }
}

/// Expects what a step says of the pool.
fn look(rt: &impl Abort, stand: &Stand, step: &Step) -> Result<(), &'static str> {
    match step {
        Spot(allocation, wanted) => {
            expect(rt, "a place", spot(stand, *allocation), Some(*wanted));
        }
        Stats(wanted) => expect(rt, "statistics", stats(stand), Some(*wanted)),
        Size(blocks, used, longest) => {
            let now = stats(stand).ok_or("no pool")?;
            let got = (now.blocks, now.used, now.largest_free);
            expect(rt, "sizes", got, (*blocks, *used, *longest));
        }
        ByPlace(wanted) => {
            let order = stand.pools.by_place(0).ok().ok_or("no order")?;
            expect(rt, "the order", order.as_slice(), *wanted);
        }
        _ => return Err("not asked"),
    }
    Ok(())
}

fn follow_all(rt: &impl Abort, stand: &mut Stand, steps: &[Step]) -> Result<(), &'static str>
    requires { Backs stand.old.pools stand.old.memories }
    ensures { Backs stand.new.pools stand.new.memories }
{
    for step in steps {
        follow(rt, stand, step)?;
    }
    Ok(())
}

static EACH_SECOND_ENDS: [Step; 4] = [End(0, None), End(2, None), End(4, None), End(6, None)];

/// Eight allocations of 1,024 bytes in two blocks of 4,096, of which each second one is left.
fn halves(rt: &impl Abort, alloc: Global) -> Result<Stand, &'static str>
    ensures { IfOk result (λ s. Backs s.pools s.memories) }
{
    let mut stand = one_pool(alloc, 1, 4096, 2)?;
    fill(&mut stand, 8)?;
    follow_all(rt, &mut stand, &EACH_SECOND_ENDS)?;
    Ok(stand)
}

const FIRST: PoolPlace = PoolPlace { block: 0, start: 0 };

const SECOND: PoolPlace = PoolPlace {
    block: 0,
    start: 2048,
};

/// Statistics, the order by place, and where a move goes.
static HALF_OF_TWO_BLOCKS: [Step; 5] = [
    Stats(HALF),
    ByPlace(&[7, 5, 3, 1]),
    Spot(7, (1, 3072)),
    Reserve(7, Some(FIRST)),
    Size(2, 5120, 1024),
];

/// Two moves are made: the second takes the last range of its block, which goes.
static MADE_MOVES: [Step; 9] = [
    Reserve(7, Some(FIRST)),
    Reserve(5, Some(SECOND)),
    Rebind(7, None),
    Spot(7, (0, 0)),
    Rebind(5, Some(1)),
    Spot(5, (0, 2048)),
    ByPlace(&[3, 5, 1, 7]),
    Stats(Statistics {
        blocks: 1,
        held: 4096,
        largest_free: 0,
        ..HALF
    }),
    Reserve(7, None),
];

/// A cancelled move leaves all as it was.
static CANCELLED_MOVE: [Step; 4] = [
    Reserve(5, Some(FIRST)),
    Cancel(5, None),
    Spot(5, (1, 1024)),
    Stats(HALF),
];

#[test]
fn moves(rt: HostRuntime) -> Result<(), Fail> {
    let all = [
        HALF_OF_TWO_BLOCKS.as_slice(),
        MADE_MOVES.as_slice(),
        CANCELLED_MOVE.as_slice(),
    ];
    for steps in all {
        let mut stand = halves(&rt, rt.alloc())?;
        follow_all(&rt, &mut stand, steps)?;
    }
    Ok(())
}

/// A block is kept for a reserved range, and goes with it.
static RESERVED_RANGE: [Step; 7] = [
    Fill(3),
    End(0, None),
    Reserve(2, Some(FIRST)),
    End(1, None),
    Cancel(2, Some(0)),
    End(2, Some(1)),
    Size(0, 0, 0),
];

/// In a pool of one kind what was given back last is given first.
static LAST_RANGE: [Step; 6] = [
    Fill(4),
    Put(16, 16, Kind::Linear, Err(MemoryError::NoRoom)),
    End(0, None),
    End(2, None),
    Put(1024, 16, Kind::Linear, Ok(4)),
    Spot(4, (0, 2048)),
];

/// Ranges that are given back join.
static JOINED_RANGES: [Step; 7] = [
    Fill(4),
    End(1, None),
    End(0, None),
    End(2, None),
    Size(1, 1024, 3072),
    Put(3072, 64, Kind::Linear, Ok(4)),
    Spot(4, (0, 0)),
];

/// On memory type 0 an optimal image shares no page with a buffer.
static PAGES_OF_THEIR_OWN: [Step; 4] = [
    Put(16, 16, Kind::Linear, Ok(0)),
    Put(256, 256, Kind::Optimal, Ok(1)),
    Spot(0, (0, 0)),
    Spot(1, (0, 1024)),
];

#[test]
fn ranges(rt: HostRuntime) -> Result<(), Fail> {
    let mut reserved = one_pool(rt.alloc(), 1, 2048, 0xffff_ffff)?;
    follow_all(&rt, &mut reserved, &RESERVED_RANGE)?;
    let all = [
        (1, LAST_RANGE.as_slice()),
        (2, JOINED_RANGES.as_slice()),
        (0, PAGES_OF_THEIR_OWN.as_slice()),
    ];
    for (memory_type, steps) in all {
        let mut stand = one_pool(rt.alloc(), memory_type, 4096, 1)?;
        follow_all(&rt, &mut stand, steps)?;
    }
    Ok(())
}

/// Map counts go by allocation, not by block.
fn expect_maps(rt: &impl Abort, stand: &mut Stand) {
    expect(rt, "one map", map(stand, 1), true);
    expect(rt, "two maps", map(stand, 1), true);
    expect(rt, "another one", unmap(stand, 3), Some(Err(MapState)));
    expect(rt, "one is left", unmap(stand, 1), Some(Ok(())));
    expect(rt, "none is left", unmap(stand, 1), Some(Ok(())));
    expect(rt, "one too many", unmap(stand, 1), Some(Err(MapState)));
    expect(rt, "one that has ended", unmap(stand, 0), None);
}

#[test]
fn maps_are_counted_for_each(rt: HostRuntime) -> Result<(), Fail> {
    let mut stand = halves(&rt, rt.alloc())?;
    expect_maps(&rt, &mut stand);
    Ok(())
}

/// An allocation with a memory object of its own lies at its start.
fn own_object(stand: &mut Stand) -> Result<u64, MemoryError>
    requires { Backs stand.old.pools stand.old.memories }
{
    let asked = Asked {
        size: 16,
        align: 16,
        kind: Kind::Linear,
    };
    stand.pools.dedicated(&mut stand.memories, 1, asked)
}

#[test]
fn an_own_object_has_offset_0(rt: HostRuntime) -> Result<(), Fail> {
    let mut stand = halves(&rt, rt.alloc())?;
    expect(&rt, "its number", own_object(&mut stand), Ok(8));
    expect(&rt, "its place", spot(&stand, 8), Some((2, 0)));
    Ok(())
}
