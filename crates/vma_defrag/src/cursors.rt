ghost use Rattle.std.specs.Prelude.{◌≡◌, ◌<◌, ◌⊎◌, ◌↔◌, All, Contains, IfSome, IsTrue, length};
ghost use Rattle.vk_model.specs.Memory.Pools.{IsHigher};
ghost use Rattle.vma_pools.specs.Exhausted.{IsAsLarge};
ghost use Rattle.vma_pools.specs.State.{IfLive, IsMovable, request_in, start_of};
ghost use Rattle.vma_defrag.specs.declared.cursors.Cursor.{Cursor};
ghost use Rattle.vma_defrag.specs.Inner.Cursors.{BeginsAt, IsPlaceOf};

use vma_blocks::PoolBlock;
use vma_pools::{Asked, Home, PoolPlace, PoolsOf};

/// How many cursors a pass keeps at most.
const MOST: usize = 64;

/// A place of a pool below which nothing has room for what is asked.
#[derive(Clone, Copy)]
pub(crate) struct Cursor {
    /// What is asked.
    pub(crate) asked: Asked,
    /// The place.
    pub(crate) low: PoolPlace,
}

impl Cursor {
    /// What an allocation of a pool asked, and where it lies there.
    pub(crate) fn at<B: PoolBlock>(pools: &PoolsOf<B>, allocation: u64) -> Cursor
        requires { IfLive pools.now allocation (λ a. IsMovable pools.now a.home a.target) }
        ensures { IfLive pools.now allocation (IsPlaceOf result) }
    {
        let Some(live) = pools.allocation(allocation) else {
            unreachable!()
        };
        let Home::Shared { place, .. } = live.home else {
            unreachable!()
        };
        Cursor {
            asked: live.asked,
            low: place,
        }
    }

    /// Whether a request has no room where that of the cursor has none.
    fn serves(self, asked: Asked) -> bool
        ensures { IsTrue result ↔ IsAsLarge (request_in self.asked) (request_in asked) }
    {
        self.asked.size <= asked.size
            && self.asked.align == asked.align
            && self.asked.kind == asked.kind
    }
}

/// Whether a place is higher in its pool than another one.
fn is_higher(place: PoolPlace, other: PoolPlace) -> bool
    ensures { IsTrue result ↔ IsHigher (start_of place) (start_of other) }
{
    other.block < place.block || place.block == other.block && other.start < place.start
}

/// Where the search for what is asked begins: at the highest place of the cursors that serve it, else
/// at the start of the pool.
pub(crate) fn low_for(cursors: &[Cursor], asked: Asked) -> PoolPlace
    ensures begins { BeginsAt cursors.now asked result }
    ensures highest { All (λ c. IsAsLarge (request_in c.asked) (request_in asked) → IsHigher (start_of c.low) (start_of result) → ⊥) cursors.now }
{
    let mut low = PoolPlace { block: 0, start: 0 };
    for cursor in cursors {
        if cursor.serves(asked) && is_higher(cursor.low, low) {
            low = cursor.low;
        }
    }
    low
}

/// The index of the cursor that makes room for one of what is asked: that of the same, or, if there are
/// as many as are kept, one by the size; none where there is room for one more.
fn replaced(cursors: &[Cursor], asked: Asked) -> Option<usize>
    ensures { IfSome result (λ index. index < length cursors.now) }
{
    for i in 0..cursors.len() {
        if cursors[i].asked == asked {
            return Some(i);
        }
    }
    if cursors.len() < MOST {
        return None;
    }
    Some((asked.size / 16) as usize % cursors.len())
}

/// Keeps a cursor, if need be in place of another one. Without memory it isn't kept: then a search
/// begins lower, and finds the same.
pub(crate) fn keep(cursors: &mut Vec<Cursor>, cursor: Cursor)
    ensures { (c : Cursor) → Contains cursors.new.items c → Contains cursors.old.items c ⊎ (c ≡ cursor) }
{
    if let Some(index) = replaced(cursors, cursor.asked) {
        cursors[index] = cursor;
        return;
    }
    if cursors.reserve(1).is_err() {
        return;
    }
    cursors.push_reserved(cursor);
}
