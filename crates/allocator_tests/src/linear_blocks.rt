use super::expect::expect;
use std::process::Abort;
use std::test::Fail;
use vk_model::{Kind, SubFault, Suballoc, TakenRange};
use vma_linear::Linear;

/// Expects where requests of so many bytes go in the lower stack.
fn expect_lower(rt: &impl Abort, block: &mut Linear, rows: &[(u64, Result<u64, SubFault>)]) {
    for (bytes, place) in rows {
        assert!(rt; *bytes > 0 && *bytes % 16 == 0);
        let got = block.allocate_lower(*bytes, 16, Kind::Linear);
        expect(rt, *bytes, got, *place);
    }
}

static BOTH_HALVES: [(u64, Result<u64, SubFault>); 2] = [(2048, Ok(0)), (2048, Ok(2048))];

static FIRST_HALF: [(u64, Result<u64, SubFault>); 3] = [
    (1024, Ok(0)),
    (1024, Ok(1024)),
    (16, Err(SubFault::NoRoom)),
];

fn expect_ring(rt: &impl Abort, block: &mut Linear) {
    expect_lower(rt, block, &BOTH_HALVES);
    block.give_back(0);
    expect_lower(rt, block, &FIRST_HALF);
    block.give_back(2048);
    expect(rt, "the longest", block.largest_free(), 2048);
    let place = block.allocate(2048, 16, Kind::Linear);
    expect(rt, "the second half", place, Ok(2048));
}

/// What is taken then, from the start on.
static TAKEN: [TakenRange; 3] = [
    TakenRange {
        start: 0,
        size: 1024,
        kind: Kind::Linear,
    },
    TakenRange {
        start: 1024,
        size: 1024,
        kind: Kind::Linear,
    },
    TakenRange {
        start: 2048,
        size: 2048,
        kind: Kind::Linear,
    },
];

/// Ranges go round to the start of a ring, and are its lower stack once nothing else is left there.
#[test]
fn a_ring_goes_round(rt: HostRuntime) -> Result<(), Fail> {
    let mut block = Linear::new(rt.alloc(), 4096, true);
    expect_ring(&rt, &mut block);
    expect(&rt, "all", block.taken()?.as_slice(), TAKEN.as_slice());
    Ok(())
}

/// An upper stack grows down from the end of the block.
fn expect_upper(rt: &impl Abort, block: &mut Linear) {
    let first = block.allocate_upper(1024, 16, Kind::Linear);
    expect(rt, "the first", first, Ok(3072));
    let below = block.allocate_lower(2048, 16, Kind::Linear);
    expect(rt, "below", below, Ok(0));
    let second = block.allocate_upper(1024, 16, Kind::Linear);
    expect(rt, "the second", second, Ok(2048));
    let full = block.allocate_lower(16, 16, Kind::Linear);
    expect(rt, "full", full, Err(SubFault::NoRoom));
}

#[test]
fn an_upper_stack_grows_down(rt: HostRuntime) {
    let mut block = Linear::new(rt.alloc(), 4096, true);
    expect_upper(&rt, &mut block);
}
