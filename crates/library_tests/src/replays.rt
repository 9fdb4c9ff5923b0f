use std::alloc::Global;
use std::test::Fail;
use vk_device::{Replayed, replay};
use vk_model::{Config, Entry, First, Scheduler};
use vk_validate::{Accepted, Verdict, validate};

/// Heaps of 64 KiB.
pub fn config() -> Config {
    match Config::new(65_536, 65_536) {
        Some(config) => config,
        None => unreachable!(),
    }
}

/// Entries that break no rule.
pub fn accepted<'a>(alloc: Global, entries: &'a [Entry]) -> Result<Accepted<'a>, Fail> {
    match validate(alloc, entries)? {
        Verdict::Accepted(accepted) => Ok(accepted),
        Verdict::Refused(..) => Err("it is refused")?,
    }
}

/// Replays them by what a scheduler picks.
pub fn replayed_by<'a, S: Scheduler>(
    alloc: Global,
    entries: &'a [Entry],
    sched: &mut S,
) -> Result<Replayed<'a>, Fail> {
    let accepted = accepted(alloc, entries)?;
    let replayed = replay(alloc, &accepted, config(), sched)?;
    Ok(replayed)
}

/// Replays them where the first option is picked.
pub fn replayed<'a>(alloc: Global, entries: &'a [Entry]) -> Result<Replayed<'a>, Fail> {
    replayed_by(alloc, entries, &mut First)
}
