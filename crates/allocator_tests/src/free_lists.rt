use super::expect::expect;
use std::alloc::{AllocError, Global};
use std::process::Abort;
use std::test::Fail;
use vk_model::{Kind, SubFault, Suballoc};
use vma_tlsf::Tlsf;

/// A request of so many bytes, and its place.
type Request = (u64, Result<u64, SubFault>);

fn expect_places(rt: &impl Abort, block: &mut Tlsf, requests: &[Request]) {
    for (number, (bytes, place)) in requests.iter().enumerate() {
        assert!(rt; *bytes > 0 && *bytes % 16 == 0);
        expect(rt, number, block.allocate(*bytes, 16, Kind::Linear), *place);
    }
}

/// Equal ranges lie one after another, until the block is full.
static QUARTERS: [Request; 3] = [(1024, Ok(0)), (1024, Ok(1024)), (1024, Ok(2048))];

static NO_QUARTER: [Request; 1] = [(1024, Err(SubFault::NoRoom))];

fn expect_full(rt: &impl Abort, block: &mut Tlsf) {
    let below = block.allocate_below(512, 16, Kind::Linear, 0, 256);
    expect(rt, "below", below, Err(SubFault::NoRoom));
    expect_places(rt, block, &QUARTERS);
    expect(rt, "the longest", block.largest_free(), 1024);
    let last = block.allocate_below(1024, 16, Kind::Linear, 0, 4096);
    expect(rt, "the last", last, Ok(3072));
    expect_places(rt, block, &NO_QUARTER);
}

/// Expects the starts of what is taken.
fn expect_taken(rt: &impl Abort, block: &Tlsf, starts: &[u64]) -> Result<(), AllocError> {
    let taken = block.taken()?;
    expect(rt, "ranges", taken.len(), starts.len());
    for (range, start) in taken.iter().zip(starts) {
        expect(rt, "a start", range.start, *start);
    }
    Ok(())
}

#[test]
fn ranges_fill_a_block(rt: HostRuntime) -> Result<(), Fail> {
    let mut block = Tlsf::new(rt.alloc(), 4096)?;
    expect_full(&rt, &mut block);
    expect_taken(&rt, &block, &[0, 1024, 2048, 3072])?;
    Ok(())
}

/// Four ranges that fill a block, of which the first two were given back.
fn first_half_free(alloc: Global) -> Result<Tlsf, SubFault> {
    let Ok(mut block) = Tlsf::new(alloc, 4096) else {
        return Err(SubFault::NoMemory);
    };
    let first = block.allocate(1024, 16, Kind::Linear)?;
    let second = block.allocate(1024, 16, Kind::Linear)?;
    let _third = block.allocate(1024, 16, Kind::Linear)?;
    let _fourth = block.allocate(1024, 16, Kind::Linear)?;
    if first == second {
        return Err(SubFault::NoRoom);
    }
    block.free(first);
    block.free(second);
    Ok(block)
}

/// What was given back joins, and the lowest place there is found.
#[test]
fn the_lowest_place_is_found(rt: HostRuntime) -> Result<(), Fail> {
    let mut block = first_half_free(rt.alloc())?;
    expect(&rt, "the longest", block.largest_free(), 2048);
    let lowest = block.allocate_below(1024, 16, Kind::Linear, 0, 4096);
    expect(&rt, "the lowest", lowest, Ok(0));
    expect_taken(&rt, &block, &[0, 2048, 3072])?;
    Ok(())
}

/// What the list that surely suffices doesn't have is found by a walk.
static BY_A_WALK: [Request; 3] = [(1616, Ok(0)), (32, Ok(1616)), (16, Err(SubFault::NoRoom))];

#[test]
fn a_place_is_found_by_a_walk(rt: HostRuntime) -> Result<(), Fail> {
    let mut block = Tlsf::new(rt.alloc(), 1648)?;
    expect_places(&rt, &mut block, &BY_A_WALK);
    Ok(())
}

/// A buffer and an optimal image don't share a page.
#[test]
fn kinds_have_pages_of_their_own(rt: HostRuntime) -> Result<(), Fail> {
    let mut block = Tlsf::mixed(rt.alloc(), 4096)?;
    let buffer = block.allocate(16, 16, Kind::Linear);
    let image = block.allocate(256, 256, Kind::Optimal);
    expect(&rt, "places", (buffer, image), (Ok(0), Ok(1024)));
    Ok(())
}
