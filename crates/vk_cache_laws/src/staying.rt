//! What queues write stays in their caches until it is written back.
ghost use Rattle.vk_cache_laws.specs.WritesStay.{PiecesLeaveMemory, StepsLeaveMemory, TouchesChangeTheirOwn, WritesStayInCaches};

/// After a piece, in a run through caches, each byte that it wrote is dirty in its queue's cache, and
/// memory has it as it was, unless a dependency or signal that happens then makes the write available
/// (`writes`). A piece changes memory only so (`pieces`), and any other step only so and by its own
/// effect (`steps`). What a queue's cache does by itself changes no other cache, and memory only where it
/// writes back (`touches`).
pub fn writes_stay_in_caches()
    ensures writes { WritesStayInCaches }
    ensures pieces { PiecesLeaveMemory }
    ensures steps { StepsLeaveMemory }
    ensures touches { TouchesChangeTheirOwn }
{}
