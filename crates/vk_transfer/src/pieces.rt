ghost use Rattle.std.specs.Prelude.{◌≡◌, ◌-◌, ◌*◌, ◌≤◌, List, length, min};
ghost use Rattle.vk_model.specs.World.ByteWrites.{ByteWrite};
ghost use Rattle.vk_model.specs.Run.Pieces.{cut};

/// A piece has this many bytes at most (profile).
pub(crate) const PIECE: u64 = 4096;

/// How many pieces so many byte writes are run in.
pub(crate) fn piece_count(size: u64) -> u64
    ensures { (ms : List ByteWrite) → length ms ≡ size → result ≡ length (cut 4096 ms) }
{
    let whole = size / PIECE;
    if size % PIECE == 0 { whole } else { whole + 1 }
}

/// How many of so many byte writes are those of a piece.
pub(crate) fn piece_size(size: u64, number: u64) -> u64
    requires { 4096 * number ≤ size }
    ensures { result ≡ min 4096 (size - 4096 * number) }
{
    PIECE.min(size - PIECE * number)
}
