ghost use Rattle.std.specs.Prelude.{◌≡◌, ◌<◌, ◌+◌, ℕ, List, Contains, Some, IfOk, filter, length};
ghost use Rattle.std.specs.Prelude.{not, ◌==◌, slice_get};
ghost use Rattle.std.specs.List.{range_with_len};

use crate::flags::PieceFlags;
use std::alloc::{AllocError, Global};
use std::marker::Model;

/// The pieces of a command that haven't run. Contracts see them as a list, rising.
///
/// A command of one piece, as most are, has no set of its own.
#[derive(Drop)]
pub struct PieceSet {
    /// How many are left.
    count: u64,
    /// Which they are, where there was more than one.
    many: Option<Box<PieceFlags>>,
}

impl Model for PieceSet {
    ghost use Rattle.std.specs.Prelude.{List, ℕ};
    ghost use Rattle.vk_sync.specs.Inner.Left.{all_left, IsCounted};

    ghost Value = { List ℕ };

    ghost view = { λ s. all_left s.count s.many };

    ghost invariant = { λ s. IsCounted s.count s.many };
}

impl PieceSet {
    /// So many pieces. The only error is want of memory.
    pub fn all(alloc: Global, count: u64) -> Result<PieceSet, AllocError>
        ensures { IfOk result (λ left. left ≡ range_with_len 0 count) }
    {
        if count <= 1 {
            return Ok(PieceSet { count, many: None });
        }
        let flags = Box::new(alloc, PieceFlags::all(alloc, count)?)?;
        Ok(PieceSet {
            count,
            many: Some(flags),
        })
    }

    /// How many pieces there are.
    pub fn len(&self) -> u64
        ensures { result ≡ length self.now }
    {
        self.count
    }

    /// A piece by its place among those left.
    pub fn nth(&self, place: u64) -> u64
        requires { place < length self.now }
        ensures { slice_get self.now place ≡ Some result }
    {
        match &self.many {
            None => 0,
            Some(flags) => flags.nth(place),
        }
    }

    /// Takes a piece away.
    pub fn remove(&mut self, piece: u64)
        requires { Contains self.old piece }
        ensures others { self.new ≡ filter (λ k. not (k == piece)) self.old }
        ensures len { length self.new + 1 ≡ length self.old }
    {
        if let Some(flags) = &mut self.many {
            flags.remove(piece);
        }
        self.count -= 1;
    }
}
