ghost use Rattle.std.specs.Prelude.{◌≡◌, ◌<◌, ◌+◌, ℕ, List, Contains, Some, IfOk, filter, length};
ghost use Rattle.std.specs.Prelude.{not, ◌==◌, slice_get};
ghost use Rattle.std.specs.List.{range_with_len};

use crate::tree::{FANOUT, SumTree};
use std::alloc::{AllocError, Global};
use std::marker::Model;

/// Pieces that are left, of many. Contracts see them as a list, rising.
#[derive(Drop)]
pub(crate) struct PieceFlags {
    /// Whether a piece is left.
    flags: Vec<bool>,
    /// How many are left, by 64 pieces.
    groups: SumTree,
    /// None before this one is left.
    first: usize,
}

impl Model for PieceFlags {
    ghost use Rattle.std.specs.Prelude.{List, ℕ, ◌≡◌, take, count_by};
    ghost use Rattle.vk_sync.specs.Inner.Sums.{AreSumsOf};
    ghost use Rattle.vk_sync.specs.Inner.Places.{places, one_if, is_so};

    ghost Value = { List ℕ };

    ghost view = { λ s. places is_so 0 s.flags.items };

    ghost invariant = { λ s. AreSumsOf one_if s.groups s.flags.items
        × (count_by is_so (take s.first s.flags.items) ≡ 0) };
}

impl PieceFlags {
    /// So many pieces, all of them left. The only error is want of memory.
    pub(crate) fn all(alloc: Global, count: u64) -> Result<PieceFlags, AllocError>
        ensures { IfOk result (λ left. left ≡ range_with_len 0 count) }
    {
        let mut flags = Vec::new(alloc);
        flags.resize(count as usize, true)?;
        let mut groups = SumTree::new(alloc);
        let mut counted = 0;
        while counted < count {
            let more = (count - counted).min(FANOUT as u64);
            groups.push_zero()?;
            groups.add(counted as usize / FANOUT, more);
            counted += more;
        }
        Ok(PieceFlags {
            flags,
            groups,
            first: 0,
        })
    }

    /// How many pieces there are.
    pub(crate) fn len(&self) -> u64
        ensures { result ≡ length self.now }
    {
        self.groups.total()
    }

    /// A piece by its place among those left.
    pub(crate) fn nth(&self, place: u64) -> u64
        requires { place < length self.now }
        ensures { slice_get self.now place ≡ Some result }
    {
        if place == 0 && self.first < self.flags.len() && self.flags[self.first] {
            return self.first as u64;
        }
        let group = self.groups.find(place);
        let mut piece = group.leaf * FANOUT;
        let mut rest = group.rest;
        while rest > 0 || !self.flags[piece] {
            if self.flags[piece] {
                rest -= 1;
            }
            piece += 1;
        }
        piece as u64
    }

    /// Takes a piece away.
    pub(crate) fn remove(&mut self, piece: u64)
        requires { Contains self.old piece }
        ensures others { self.new ≡ filter (λ k. not (k == piece)) self.old }
        ensures len { length self.new + 1 ≡ length self.old }
    {
        let piece = piece as usize;
        self.flags[piece] = false;
        self.groups.subtract(piece / FANOUT, 1);
        self.skip_taken();
    }

    /// Where none is left up to and with the first one looked at, searches begin after it.
    fn skip_taken(&mut self)
        ensures { self.new ≡ self.old }
    {
        if self.first < self.flags.len() && !self.flags[self.first] {
            self.first += 1;
        }
    }
}
