ghost use Rattle.std.specs.Prelude.{◌≡◌, ◌≤◌, ◌<◌, ◌+◌, ℕ, length, true, Some};
ghost use Rattle.vk_memory.specs.MemoryState.{region_of};
ghost use Rattle.vk_image_transfer.specs.Stretches.{is_among};
ghost use Rattle.vk_resources.specs.declared.resources.Placed.{Placed};
ghost use Rattle.vk_resources.specs.Held.{placed};
ghost use Rattle.vk_lag.specs.Lags.{resource_in, late_at};
ghost use Rattle.vk_availability.specs.AreLate.{BecomesBehind};
ghost use Rattle.vk_availability.specs.Pieces.{MayBeLate, late_by};

use vk_heap::Region;
use vk_lag::{Lags, Writer};
use vk_resources::{Resources, Written};

/// The bytes that a piece is about to write become late, by the command that it is of: memory still has
/// what it has of them now. It takes no memory.
pub fn make_late(lags: &mut Lags, resources: &Resources, written: Written, writer: Writer)
    requires { MayBeLate resources.now lags.old written }
    ensures room { (id : ℕ) → length (resource_in lags.new id) ≡ length (resource_in lags.old id) }
    ensures behind { BecomesBehind resources.now lags.old lags.new written writer }
    ensures bytes { (p : Placed) → placed resources.now written.resource ≡ Some p
        → (id k : ℕ) → late_at lags.new id k ≡ late_by written.resource written.left (region_of resources.now.memory p.object) p.offset writer id k (late_at lags.old id k) }
{
    let Some(spot) = resources.spot(written.resource) else {
        unreachable!()
    };
    let region = resources.memories().region(spot.memory);
    make_late_in(lags, region, spot.offset, written, writer);
}

/// The same of bytes of a resource that lies in a region from byte `base` on.
fn make_late_in(lags: &mut Lags, region: &Region, base: u64, mut written: Written, writer: Writer)
    requires room { (k : ℕ) → is_among written.left k ≡ true → k < length (resource_in lags.old written.resource) }
    requires inside { (k : ℕ) → is_among written.left k ≡ true → base + k < length region.now }
    ensures room { (id : ℕ) → length (resource_in lags.new id) ≡ length (resource_in lags.old id) }
    ensures bytes { (id k : ℕ) → late_at lags.new id k ≡ late_by written.resource written.left region.now base writer id k (late_at lags.old id k) }
{
    let _size = region.size();
    while let Some(stretch) = written.next_stretch() {
        lags.write_from(
            written.resource,
            stretch.at,
            stretch.size,
            region,
            base,
            writer,
        );
    }
}
