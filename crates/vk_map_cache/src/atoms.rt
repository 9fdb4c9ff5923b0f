ghost use Rattle.std.specs.Prelude.{◌≡◌, ◌<◌, ◌≤◌, ◌+◌, ◌*◌, ◌/◌, ◌^◌, ◌&&◌, ◌==◌, ℕ, nat_lt, nat_le};
ghost use Rattle.vk_model.specs.declared.command.Length.TheVariants as length_of;
ghost use Rattle.vk_model.specs.World.Effect.{in_atoms};

/// The bytes that are flushed or invalidated together, as `nonCoherentAtomSize` (profile).
pub(crate) const ATOM: u64 = 64;

/// The bytes from `low` to before `high`.
#[derive(Clone, Copy)]
pub(crate) struct Span {
    /// The first byte.
    pub low: usize,
    /// The byte after the last one.
    pub high: usize,
}

/// The atoms that a range reaches, of an object of `len` bytes.
pub(crate) fn atoms_of(offset: u64, size: u64, len: u64) -> Span
    requires { offset + size < 2 ^ 64 }
    ensures order { result.low ≤ result.high }
    ensures end { result.high ≤ len }
    ensures bytes { (k : ℕ) → k < len
        → in_atoms offset (length_of.Bytes size) k ≡ (nat_le result.low k && nat_lt k result.high) }
{
    let end = len.min(offset + size);
    if size == 0 || end == 0 {
        return Span { low: 0, high: 0 };
    }
    let last = (end - 1) / ATOM;
    let high = atom_end(last, len);
    let low = high.min(offset / ATOM * ATOM);
    Span {
        low: low as usize,
        high: high as usize,
    }
}

/// One atom of an object of `len` bytes, by its number; no byte where it is past the end.
pub(crate) fn atom_at(atom: u64, len: u64) -> Span
    ensures order { result.low ≤ result.high }
    ensures end { result.high ≤ len }
    ensures size { result.high ≤ result.low + 64 }
    ensures bytes { (k : ℕ) → k < len
        → (k / 64 == atom) ≡ (nat_le result.low k && nat_lt k result.high) }
{
    if atom > len / ATOM {
        return Span { low: 0, high: 0 };
    }
    Span {
        low: (atom * ATOM) as usize,
        high: atom_end(atom, len) as usize,
    }
}

/// Where an atom that begins within the object ends.
fn atom_end(atom: u64, len: u64) -> u64
    requires { atom ≤ len / 64 }
    ensures within { result ≤ len }
    ensures least { 64 * atom ≤ result }
    ensures most { result ≤ 64 * atom + 64 }
    ensures cut { result < 64 * atom + 64 → result ≡ len }
{
    let low = atom * ATOM;
    low + ATOM.min(len - low)
}
