ghost use Rattle.std.specs.Prelude.{◌≡◌, IfOk};
ghost use Rattle.vk_model.specs.Memory.Pools.{new_block};
ghost use Rattle.vma_blocks.specs.Blocks.{block_of};

use super::expect::expect;
use std::alloc::{AllocError, Global};
use std::process::Abort;
use std::test::Fail;
use vk_model::{Kind, PoolInfo, PoolKind, SubFault};
use vma_blocks::{AnyBlock, PoolBlock};

/// A block of 64 bytes of a pool of so many blocks.
fn small(alloc: Global, kind: PoolKind, block_limit: u32) -> Result<AnyBlock, AllocError>
    ensures { IfOk result (λ b. block_of b ≡ new_block (record { kind = kind; memory_type = 0; block_size = 64; block_limit = block_limit })) }
{
    AnyBlock::make(
        alloc,
        PoolInfo {
            kind,
            memory_type: 0,
            block_size: 64,
            block_limit,
        },
    )
}

/// A linear block of which both halves were taken, and the first was given back.
fn half_left(alloc: Global, block_limit: u32) -> Result<AnyBlock, SubFault> {
    let Ok(mut block) = small(alloc, PoolKind::Linear, block_limit) else {
        return Err(SubFault::NoMemory);
    };
    let first = block.allocate(32, 16, Kind::Linear, false)?;
    let _second = block.allocate(32, 16, Kind::Linear, false)?;
    block.free(first);
    Ok(block)
}

/// A block that can be defragmented, which was full and of which nothing is left.
fn nothing_left(alloc: Global) -> Result<AnyBlock, SubFault> {
    let Ok(mut block) = small(alloc, PoolKind::Tlsf, 1) else {
        return Err(SubFault::NoMemory);
    };
    let all = block.allocate(64, 16, Kind::Linear, false)?;
    block.free(all);
    Ok(block)
}

/// A request of so many bytes, from the upper end or not, with its place and the longest free range
/// after it.
type Request = (u64, bool, Result<u64, SubFault>, u64);

/// The only block of a linear pool is a ring.
static RING: [Request; 4] = [
    (16, false, Ok(0), 16),
    (16, true, Err(SubFault::NoRoom), 16),
    (16, false, Ok(16), 0),
    (16, false, Err(SubFault::NoRoom), 0),
];

/// One of several blocks is no ring.
static NO_RING: [Request; 1] = [(16, false, Err(SubFault::NoRoom), 32)];

/// Stacks from both ends meet.
static STACKS: [Request; 5] = [
    (16, true, Ok(48), 48),
    (32, false, Ok(0), 16),
    (16, true, Ok(32), 0),
    (16, false, Err(SubFault::NoRoom), 0),
    (16, true, Err(SubFault::NoRoom), 0),
];

/// A block that can be defragmented is full where all of it is taken.
static FULL: [Request; 2] = [(64, true, Ok(0), 0), (16, false, Err(SubFault::NoRoom), 0)];

fn expect_places(rt: &impl Abort, block: &mut AnyBlock, requests: &[Request]) {
    for (number, (bytes, upper, place, longest)) in requests.iter().enumerate() {
        assert!(rt; *bytes > 0 && *bytes % 16 == 0);
        let got = block.allocate(*bytes, 16, Kind::Linear, *upper);
        expect(rt, number, got, *place);
        let left = (block.largest_free(), block.is_empty());
        expect(rt, number, left, (*longest, false));
    }
}

#[test]
fn a_linear_block_of_a_pool(rt: HostRuntime) -> Result<(), Fail> {
    let mut ring = half_left(rt.alloc(), 1)?;
    expect_places(&rt, &mut ring, &RING);
    let mut no_ring = half_left(rt.alloc(), 2)?;
    expect_places(&rt, &mut no_ring, &NO_RING);
    let mut stacks = small(rt.alloc(), PoolKind::Linear, 2)?;
    expect(&rt, "a new block", stacks.is_empty(), true);
    expect_places(&rt, &mut stacks, &STACKS);
    Ok(())
}

/// It is empty again once all was given back.
fn expect_empty(rt: &impl Abort, block: &mut AnyBlock) {
    let left = (block.is_empty(), block.largest_free());
    expect(rt, "what is left", left, (true, 64));
    let all = block.allocate(64, 16, Kind::Optimal, false);
    expect(rt, "all of it", all, Ok(0));
}

#[test]
fn a_block_that_can_be_defragmented(rt: HostRuntime) -> Result<(), Fail> {
    let mut block = small(rt.alloc(), PoolKind::Tlsf, 1)?;
    let below = block.allocate_below(32, 16, Kind::Linear, 0, 24);
    expect(&rt, "below", below, Err(SubFault::NoRoom));
    expect_places(&rt, &mut block, &FULL);
    let mut again = nothing_left(rt.alloc())?;
    expect_empty(&rt, &mut again);
    Ok(())
}

/// Where 240 bytes go in a block of 8,192 bytes that has a free range of just that length before what
/// is taken at a multiple of 256, and a long one behind it.
fn beside_a_hole(alloc: Global, memory_type: u32) -> Result<u64, SubFault> {
    let info = PoolInfo {
        kind: PoolKind::Tlsf,
        memory_type,
        block_size: 8192,
        block_limit: 1,
    };
    let Ok(mut block) = AnyBlock::make(alloc, info) else {
        return Err(SubFault::NoMemory);
    };
    let _first = block.allocate(16, 16, Kind::Linear, false)?;
    let _second = block.allocate(256, 256, Kind::Linear, false)?;
    block.allocate(240, 16, Kind::Linear, false)
}

/// Where optimal images can lie, on memory type 0, a search asks for two pages more, and so passes
/// over a hole of just the length.
#[test]
fn blocks_of_one_kind_ask_for_no_page_more(rt: HostRuntime) {
    for (memory_type, place) in [(0, 512), (1, 16), (2, 16)] {
        let got = beside_a_hole(rt.alloc(), memory_type);
        expect(&rt, memory_type, got, Ok(place));
    }
}
