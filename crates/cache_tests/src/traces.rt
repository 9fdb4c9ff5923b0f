use std::alloc::Global;
use std::test::Fail;
use vk_model::{Config, Entry};
use vk_validate::{Accepted, Verdict, validate};

/// Heaps of 64 KiB.
pub fn config() -> Config {
    match Config::new(65_536, 65_536) {
        Some(config) => config,
        None => unreachable!(),
    }
}

/// Entries that break no rule.
pub fn accepted<'a>(alloc: Global, entries: &'a [Entry]) -> Result<Accepted<'a>, Fail> {
    match validate(alloc, entries)? {
        Verdict::Accepted(accepted) => Ok(accepted),
        Verdict::Refused(..) => Err("it is refused")?,
    }
}
