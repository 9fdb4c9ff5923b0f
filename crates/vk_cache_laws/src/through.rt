//! What the host reads on a device whose queues each have a write-back cache.
ghost use Rattle.vk_cache_laws.specs.CachedPicks.{CachedPicksAreRuns, CachedPicksAreThePicks};
ghost use Rattle.vk_cache_laws.specs.ThroughCaches.{CachedRunsAreNotStuck, CachedRunsReadTheMeaning, CachedRunsReadTheWhole};

use vk_laws::{
    cached_runs_are_reached, cached_runs_mean_the_trace, defined_runs_follow, defined_runs_go_on,
};

/// In each run of a trace without a fault through caches of queues, whatever the caches do by
/// themselves, the host has read what the entries so far mean (`reads`), all of it when no entry is left
/// (`whole`); and while one is left some step is allowed (`goes_on`).
pub fn cached_runs_read_the_meaning()
    ensures reads { CachedRunsReadTheMeaning }
    ensures whole { CachedRunsReadTheWhole }
    ensures goes_on { CachedRunsAreNotStuck }
{
    cached_runs_are_reached();
    cached_runs_mean_the_trace();
    defined_runs_follow();
    defined_runs_go_on();
}

/// Whatever a scheduler answers, what it picks for a trace without a fault on a device whose queues each
/// have a cache is an allowed run through caches; to the trace's end, where no entry finds no room
/// (`runs`). For every trace these are its picks, with what the caches do between them (`picks`).
pub fn cached_picks_are_runs()
    ensures runs { CachedPicksAreRuns }
    ensures picks { CachedPicksAreThePicks }
{
    cached_runs_are_reached();
    defined_runs_go_on();
}
