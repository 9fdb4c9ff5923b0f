ghost use Rattle.std.specs.Prelude.{◌≡◌, ℕ, length};
ghost use Rattle.vk_resources.specs.Held.{Held};
ghost use Rattle.vk_lag.specs.Lags.{resource_in};
ghost use Rattle.vk_availability.specs.Touches.{WritesBack};

use vk_lag::{Due, Lags};

/// The cache of a queue writes back what it holds dirty of a resource, by its id, wherever that lies:
/// memory catches up with what the queue wrote of it. It takes no memory.
pub fn write_back(lags: &mut Lags, resource: u32, queue: u32)
    ensures room { (id : ℕ) → length (resource_in lags.new id) ≡ length (resource_in lags.old id) }
    ensures back { (s : Held) → WritesBack s lags.old lags.new resource queue }
{
    lags.catch_up_whole(resource, Due::Of(queue));
}
