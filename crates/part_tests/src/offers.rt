use super::expect::expect;
use std::alloc::{AllocError, Global};
use std::test::Fail;
use vk_model::Entry;
use vk_offers::{Happenings, Offers};

fn is_met_at_first(alloc: Global, entry: &Entry) -> Result<bool, AllocError> {
    let offers = Offers::new(alloc);
    let before = offers.before(0, entry)?;
    Ok(offers.is_met(before))
}

/// How many pieces are offered, as a count and as a list.
fn offered_at_first(alloc: Global) -> Result<(u64, usize), AllocError> {
    let offers = Offers::new(alloc);
    let pieces = offers.offered()?;
    Ok((offers.count(), pieces.len()))
}

/// Whether nothing has happened, and how many pieces are offered.
fn happens_at_first(alloc: Global) -> (bool, u64) {
    let mut happenings = Happenings::new(alloc);
    let is_none = happenings.take_next().is_none();
    (is_none, happenings.offers().count())
}

#[test]
fn no_points_offer_nothing(rt: HostRuntime) -> Result<(), Fail> {
    expect(&rt, "pieces", offered_at_first(rt.alloc())?, (0, 0));
    expect(&rt, "happens", happens_at_first(rt.alloc()), (true, 0));
    let map = Entry::Map { buffer: 1 };
    expect(&rt, "a map", is_met_at_first(rt.alloc(), &map)?, true);
    Ok(())
}
