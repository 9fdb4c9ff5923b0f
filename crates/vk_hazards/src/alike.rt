ghost use Rattle.std.specs.Prelude.{◌≡◌, ◌≤◌, ◌<◌, ◌+◌, ◌^◌, ◌&&◌, ℕ, nat_le, nat_lt};
ghost use Rattle.vk_model.specs.World.Bytes.{in_buffer};
ghost use Rattle.vk_model.specs.World.Effect.{in_atoms};
ghost use Rattle.vk_model.specs.Sync.Seen.{has_byte, covers};
ghost use Rattle.vk_order.specs.NodeViews.{act_of};
ghost use Rattle.vk_hazards.specs.Areas.{is_between};
ghost use Rattle.vk_hazards.specs.Inner.Pairs.{IsAlike};

use vk_model::{Element, Entry, Length};
use vk_order::Act;

/// The bytes of an atom of memory that the host reaches through a cache.
const ATOM: u64 = 64;

/// Up to which byte of a range of a buffer an act does the same as with its first one.
pub fn alike_until(act: &Act<'_>, buffer: u32, at: u64, high: u64) -> u64
    requires { at < high }
    ensures further { at < result }
    ensures within { result ≤ high }
    ensures alike { (k : ℕ) → at ≤ k → k < result → IsAlike (act_of act.now) (in_buffer buffer k) (in_buffer buffer at) }
{
    match act {
        Act::Barrier(Element::Buffer(range)) if range.buffer == buffer => {
            until_range(range.offset, range.size, at, high)
        }
        Act::Hosts(
            Entry::Flush {
                buffer: other,
                offset,
                size,
            },
        ) if *other == buffer => until_atoms(*offset, *size, at, high),
        Act::Hosts(
            Entry::Invalidate {
                buffer: other,
                offset,
                size,
            },
        ) if *other == buffer => until_atoms(*offset, *size, at, high),
        _ => high,
    }
}

/// The same of being from one byte on and below another.
fn until_bounds(low: u64, end: u64, at: u64, high: u64) -> u64
    requires { at < high }
    ensures further { at < result }
    ensures within { result ≤ high }
    ensures alike { (k : ℕ) → at ≤ k → k < result → is_between low end k ≡ is_between low end at }
{
    if at < low {
        low.min(high)
    } else if at < end {
        end.min(high)
    } else {
        high
    }
}

/// The same of being in a range.
fn until_range(offset: u64, size: Length, at: u64, high: u64) -> u64
    requires { at < high }
    ensures further { at < result }
    ensures within { result ≤ high }
    ensures alike { (k : ℕ) → at ≤ k → k < result → has_byte offset size k ≡ has_byte offset size at }
{
    let end = match size {
        Length::Bytes(bytes) => offset.saturating_add(bytes),
        Length::Whole => u64::MAX,
    };
    until_bounds(offset, end, at, high)
}

/// The same of being in an atom that a flush or an invalidation of a range reaches.
fn until_atoms(offset: u64, size: Length, at: u64, high: u64) -> u64
    requires { at < high }
    ensures further { at < result }
    ensures within { result ≤ high }
    ensures alike { (k : ℕ) → at ≤ k → k < result → in_atoms offset size k ≡ in_atoms offset size at }
{
    let low = offset / ATOM * ATOM;
    let end = match size {
        Length::Bytes(0) => low,
        Length::Bytes(bytes) => {
            (offset.saturating_add(bytes - 1) / ATOM * ATOM).saturating_add(ATOM)
        }
        Length::Whole => u64::MAX,
    };
    until_bounds(low, end, at, high)
}
