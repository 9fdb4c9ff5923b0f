ghost use Rattle.std.specs.Prelude.{◌≡◌, ◌<◌, ◌≤◌, ◌+◌, ℕ, ◌&&◌, nat_lt, nat_le, if◌then◌else◌, length, slice_index};
ghost use Rattle.vk_model.specs.Run.Caches.{Cell};
ghost use Rattle.vk_map_cache.specs.Holdings.{IsCell, held_in};
ghost use Rattle.vk_map_cache.specs.Inner.Marks.{changed};

use crate::mark::Change;
use crate::object::ObjectCache;
use vk_heap::Region;

/// How many bytes are taken out of a region at once.
const PIECE: usize = 1024;

/// Changes the bytes from `low` to before `high`, in the cache and in the region.
pub(crate) fn change_span(
    change: Change,
    object: &mut ObjectCache,
    region: &mut Region,
    low: usize,
    high: usize,
)
    requires order { low ≤ high }
    requires room { high ≤ length object.old }
    requires within { high ≤ length region.old }
    ensures object { length object.new ≡ length object.old }
    ensures region { length region.new ≡ length region.old }
    ensures bytes { (k : ℕ) (cell : Cell)
        → IsCell (held_in object.old k) (slice_index region.old k) cell
        → IsCell (held_in object.new k) (slice_index region.new k)
        (if nat_le low k && nat_lt k high then changed change cell else cell) }
{
    let mut buffer = [0; PIECE];
    let mut done = low;
    while done < high {
        let count = PIECE.min(high - done);
        change_piece(change, object, region, done, &mut buffer[..count]);
        done += count;
    }
}

/// Changes the bytes from byte `at` on, as many as `bytes` has room for.
fn change_piece(
    change: Change,
    object: &mut ObjectCache,
    region: &mut Region,
    at: usize,
    bytes: &mut [u8],
)
    requires room { at + length bytes.old ≤ length object.old }
    requires within { at + length bytes.old ≤ length region.old }
    ensures object { length object.new ≡ length object.old }
    ensures region { length region.new ≡ length region.old }
    ensures bytes { (k : ℕ) (cell : Cell)
        → IsCell (held_in object.old k) (slice_index region.old k) cell
        → IsCell (held_in object.new k) (slice_index region.new k)
        (if nat_le at k && nat_lt k (at + length bytes.old) then changed change cell else cell) }
{
    region.read(at as u64, bytes);
    object.change(change, at, bytes);
    region.write(at as u64, bytes);
}
