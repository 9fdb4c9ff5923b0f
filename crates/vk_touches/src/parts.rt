ghost use Rattle.std.specs.Prelude.{◌≡◌, ◌≤◌, ◌<◌, ◌+◌, ◌*◌, ◌/◌, ◌&&◌, ℕ, min, nat_le, nat_lt};
ghost use Rattle.vk_model.specs.World.Effect.{in_atoms};

use vk_model::Length;

/// The bytes of an atom of memory that the host reaches through a cache.
const ATOM: u64 = 64;

/// The part of a range that lies in a buffer: the bytes from `low` on, below `high`.
#[derive(Clone, Copy)]
pub struct Part {
    /// The first byte.
    pub low: u64,
    /// The byte after the last.
    pub high: u64,
    ghost ordered: { low ≤ high },
}

impl Part {
    /// Of the bytes from `offset + start` on, below `offset + end`, those below `len`.
    pub fn of(offset: u64, start: u64, end: u64, len: u64) -> Part
        ensures high { result.high ≡ min (offset + end) len }
        ensures low { result.low ≡ min (offset + start) result.high }
    {
        let high = offset.saturating_add(end).min(len);
        Part {
            low: offset.saturating_add(start).min(high),
            high,
        }
    }

    /// Of the atoms that a flush or an invalidation of a range reaches, the bytes below `len`.
    pub fn of_atoms(offset: u64, size: Length, len: u64) -> Part
        ensures within { result.high ≤ len }
        ensures reached { (k : ℕ) → k < len → in_atoms offset size k ≡ (nat_le result.low k && nat_lt k result.high) }
    {
        let high = match size {
            Length::Bytes(0) => 0,
            Length::Bytes(bytes) => end_of_atom(offset.saturating_add(bytes) - 1).min(len),
            Length::Whole => len,
        };
        Part {
            low: (offset / ATOM * ATOM).min(high),
            high,
        }
    }
}

/// The byte after the atom of a byte, or the last one that has a number.
fn end_of_atom(byte: u64) -> u64
    ensures { result ≡ min (byte / 64 * 64 + 64) u64.MAX }
{
    (byte / ATOM * ATOM).saturating_add(ATOM)
}
