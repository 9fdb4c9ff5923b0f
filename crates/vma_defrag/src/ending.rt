ghost use Rattle.std.specs.Prelude.{◌≡◌, ◌<◌, [], ◌++◌, ℕ, List, Contains, length, map, set, sum_by};
ghost use Rattle.vk_model.specs.Basics.{among};
ghost use Rattle.vk_memory.specs.MemoryState.{MemoryState};
ghost use Rattle.vk_transfer.specs.Counted.{AreCounted};
ghost use Rattle.vma_pools.specs.State.{Backs, IfLive, released};
ghost use Rattle.vma_defrag.specs.State.{part_count};
ghost use Rattle.vma_defrag.specs.Bytes.{AreAllCopied, AreCopied};
ghost use Rattle.vma_defrag.specs.Ends.{AreOfPool, HasEnded, KeepsBytes, Settles, is_made};
ghost use Rattle.vma_defrag.specs.Plans.{AreMatched, ArePlanned, IsMove};
ghost use Rattle.vma_defrag.specs.Inner.Planned.{move_of, moves_of, AreIndexed, AreMade};
ghost use Rattle.vma_defrag.specs.Inner.Ending.{HaveFates, AreEnded, AreSettled, is_kept, marked};
ghost use Rattle.vma_defrag.specs.Inner.Copying.{TakesPart};

use crate::open::{Fate, OpenPass, Planned};
use crate::parts::{Parts, copy_bytes};
use std::collections::BTreeMap;
use vk_memory::Memories;
use vma_blocks::PoolBlock;
use vma_pools::PoolsOf;

/// Says what becomes of the moves of some allocations; one that doesn't move has none.
fn mark(
    planned: &mut Vec<Planned>,
    by_number: &BTreeMap<u64, usize>,
    allocations: &[u64],
    fate: Fate,
)
    requires { AreIndexed planned.old.items by_number.now.entries }
    ensures { planned.new.items ≡ map (marked allocations.now fate) planned.old.items }
{
    for allocation in allocations {
        if let Some(index) = by_number.get(allocation) {
            planned[*index].fate = fate;
        }
    }
}

/// Says what becomes of each move: it stays where its allocation is ignored, else it is lost where that
/// is destroyed.
fn decide(
    planned: &mut Vec<Planned>,
    by_number: &BTreeMap<u64, usize>,
    ignored: &[u64],
    destroyed: &[u64],
)
    requires made { AreMade planned.old.items }
    requires indexed { AreIndexed planned.old.items by_number.now.entries }
    ensures moves { moves_of planned.new.items ≡ moves_of planned.old.items }
    ensures fates { HaveFates ignored.now destroyed.now planned.new.items }
{
    mark(planned, by_number, destroyed, Fate::Lost);
    mark(planned, by_number, ignored, Fate::Kept);
}

/// Takes the first part that is left: it is copied if its move is made.
fn take_part<B: PoolBlock>(
    pools: &PoolsOf<B>,
    memories: &mut Memories,
    planned: &[Planned],
    parts: &mut Parts,
)
    requires some { 0 < length parts.old.left }
    requires planned { (pool : ℕ) × ArePlanned pools.now pool (moves_of planned.now) }
    requires backs { Backs pools.now memories.old }
    requires matched { AreMatched pools.now }
    requires counted { AreCounted part_count (moves_of planned.now) (length (moves_of planned.now)) parts.old.counts }
    requires within { (k : ℕ) → Contains parts.old.left k → k < sum_by part_count (moves_of planned.now) }
    ensures counts { parts.new.counts ≡ parts.old.counts }
    ensures taken { TakesPart pools.now planned.now parts.old.left parts.new.left memories.old memories.new }
{
    let part = parts.nth(0);
    let its = parts.find(planned, part);
    let one = planned[its.index];
    match one.fate {
        Fate::Made => copy_bytes(pools, memories, one, its.number),
        Fate::Kept | Fate::Lost => {}
    }
    parts.finish(part);
}

/// Copies the parts that are left of the moves that are made.
fn copy_rest<B: PoolBlock>(
    pools: &PoolsOf<B>,
    memories: &mut Memories,
    planned: &[Planned],
    parts: &mut Parts,
)
    requires planned { (pool : ℕ) × ArePlanned pools.now pool (moves_of planned.now) }
    requires backs { Backs pools.now memories.old }
    requires matched { AreMatched pools.now }
    requires counted { AreCounted part_count (moves_of planned.now) (length (moves_of planned.now)) parts.old.counts }
    requires within { (k : ℕ) → Contains parts.old.left k → k < sum_by part_count (moves_of planned.now) }
    ensures copied { (ignored destroyed : List ℕ) → HaveFates ignored destroyed planned.now → AreCopied pools.now memories.old (moves_of planned.now) parts.old.left → AreAllCopied pools.now (moves_of planned.now) (is_made ignored destroyed) memories.old memories.new }
    ensures backs { Backs pools.now memories.new }
{
    pools.are_pools();
    for _ in 0..parts.left() {
        take_part(pools, memories, planned, parts);
    }
}

/// Ends a move: it is cancelled where its allocation is ignored, else it is made. Answers the memory
/// object that is freed with that: a block in which nothing else is taken.
fn settle<B: PoolBlock>(
    pools: &mut PoolsOf<B>,
    memories: &mut Memories,
    one: Planned,
) -> Option<u64>
    requires planned { (pool : ℕ) × IsMove pools.old pool (move_of one) }
    requires backs { Backs pools.old memories.old }
    ensures settles { IfLive pools.old one.allocation (Settles (is_kept one.fate) pools.old (move_of one) pools.new result) }
    ensures memory { memories.new ≡ released memories.old result }
    ensures backs { Backs pools.new memories.new }
{
    match one.fate {
        Fate::Kept => pools.cancel(memories, one.allocation),
        Fate::Made | Fate::Lost => pools.rebind(memories, one.allocation),
    }
}

/// Ends moves one after another.
fn settle_all<B: PoolBlock>(pools: &mut PoolsOf<B>, memories: &mut Memories, planned: &[Planned])
    requires planned { (pool : ℕ) × ArePlanned pools.old pool (moves_of planned.now) }
    requires backs { Backs pools.old memories.old }
    requires matched { AreMatched pools.old }
    ensures { AreSettled pools.old memories.old planned.now (length planned.now) pools.new memories.new }
{
    for one in planned {
        settle(pools, memories, *one);
    }
}

/// Ends allocations of a pool one after another.
fn end_all<B: PoolBlock>(pools: &mut PoolsOf<B>, memories: &mut Memories, numbers: &[u64])
    requires listed { (pool : ℕ) × AreOfPool pools.old pool numbers.now × ArePlanned pools.old pool [] }
    requires backs { Backs pools.old memories.old }
    requires matched { AreMatched pools.old }
    ensures { AreEnded pools.old memories.old numbers.now (length numbers.now) pools.new memories.new }
{
    for number in numbers {
        pools.free(memories, *number);
    }
}

/// Ends a pass.
pub(crate) fn end_open<B: PoolBlock>(
    open: OpenPass,
    pools: &mut PoolsOf<B>,
    memories: &mut Memories,
    ignored: &[u64],
    destroyed: &[u64],
)
    requires planned { (pool : ℕ) × ArePlanned pools.old pool open.moves × AreOfPool pools.old pool destroyed.now }
    requires backs { Backs pools.old memories.old }
    requires matched { AreMatched pools.old }
    requires copied { AreCopied pools.old memories.old open.moves open.left }
    ensures ended { (gone : List ℕ) × HasEnded open.moves pools.old pools.new memories.old memories.new ignored.now destroyed.now gone }
    ensures bytes { KeepsBytes pools.old memories.old pools.new memories.new }
    ensures planned { (pool : ℕ) → ArePlanned pools.old pool open.moves → ArePlanned pools.new pool [] }
    ensures backs { Backs pools.new memories.new }
    ensures matched { AreMatched pools.new }
{
    pools.are_pools();
    let OpenPass {
        mut planned,
        mut prepared,
    } = open;
    decide(&mut planned, &prepared.by_number, ignored, destroyed);
    copy_rest(pools, memories, &planned, &mut prepared.parts);
    settle_all(pools, memories, &planned);
    end_all(pools, memories, destroyed);
    pools.are_pools();
}
