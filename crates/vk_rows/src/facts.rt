ghost use Rattle.vk_rows.specs.NoRoom.{NoRoom};
ghost use Rattle.vk_rows.specs.Places.{Places};
ghost use Rattle.vk_rows.specs.Work.{Work};
ghost use Rattle.vk_rows.specs.Limits.{Limits};
ghost use Rattle.vk_rows.specs.QueueCaches.{QueueCaches};
ghost use Rattle.vk_rows.specs.Addresses.{Addresses};
ghost use Rattle.vk_rows.specs.LinearBlocks.{LinearBlocks};
ghost use Rattle.vk_rows.specs.PoolBlocks.{PoolBlocks};
ghost use Rattle.vk_rows.specs.Stops.{Stopping};
ghost use Rattle.vk_rows.specs.Passes.{PassRows};
ghost use Rattle.vk_rows.specs.RunsMisread.{RunsMisread};

/// Allocations that find no room.
pub fn no_room()
    ensures { NoRoom }
{}

/// Places in blocks, and the moves of a pass.
pub fn places()
    ensures { Places }
{}

/// Pieces of commands, the order of nodes, what may run next, and what a scheduler is asked.
pub fn work()
    ensures { Work }
{}

/// The limit on points.
pub fn limits()
    ensures { Limits }
{}

/// Where texels lie in images, and what resources need of memory.
pub fn addresses()
    ensures { Addresses }
{}

/// Linear blocks through requests and frees.
pub fn linear_blocks()
    ensures { LinearBlocks }
{}

/// Pools through allocations and frees: blocks, places, statistics and the moves of a pass.
pub fn pool_blocks()
    ensures { PoolBlocks }
{}

/// Passes of a defragmentation: the sum of ranks, how many moves are made, and the parts that are
/// copied.
pub fn passes()
    ensures { PassRows }
{}

/// Where traces stop on a device, and how far others come.
pub fn stopping()
    ensures { Stopping }
{}

/// Runs through caches: what memory and caches hold of a byte, step by step.
pub fn queue_caches()
    ensures { QueueCaches }
{}

/// Wrong readings of what has room, of what runs next and of what caches hold: traces without a fault
/// that each has otherwise.
pub fn runs_misread()
    ensures { RunsMisread }
{}
