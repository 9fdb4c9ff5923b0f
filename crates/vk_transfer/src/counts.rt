ghost use Rattle.std.specs.Prelude.{◌≡◌, ◌+◌, ◌-◌, ◌^◌, ◌<◌, ◌≤◌, [], ◌∷◌, ◌++◌, ℕ, List, length, slice_index, OnOk, OnErr, IsErrOf};
ghost use Rattle.vk_transfer.specs.Counted.{all_counted};

use std::alloc::{AllocError, AllocFailed, Global};
use std::marker::Model;
use thiserror::Error;

/// Why the pieces of a copy could not be counted.
#[derive(Clone, Copy, Debug, Drop, PartialEq, Eq, Error)]
pub enum CopyError {
    /// They are more than a number of 64 bits says.
    #[error("too many pieces")]
    TooManyPieces,
    /// The program's own memory could not grow.
    #[error("no memory")]
    NoMemory,
}

impl From<AllocError> for CopyError {
    ghost use Rattle.vk_transfer.specs.declared.counts.CopyError.TheVariants.{NoMemory};
    ghost use Rattle.std.specs.Prelude.{◌≡◌};

    ghost from_gives = { λ _ e. e ≡ NoMemory };

    fn from(_refused: AllocError) -> CopyError {
        CopyError::NoMemory
    }
}

impl<T: Drop> From<AllocFailed<T>> for CopyError {
    ghost use Rattle.vk_transfer.specs.declared.counts.CopyError.TheVariants.{NoMemory};
    ghost use Rattle.std.specs.Prelude.{◌≡◌};

    ghost from_gives = { λ _ e. e ≡ NoMemory };

    fn from(_refused: AllocFailed<T>) -> CopyError {
        CopyError::NoMemory
    }
}

/// How many pieces come before each part of a command, to find the part that has a piece. Contracts
/// see these numbers; the last is how many pieces there are. One part takes no memory.
#[derive(Drop)]
pub struct Counts {
    /// How many pieces the first part has, where there is one.
    first: Option<u64>,
    /// Where there is more than one part, how many pieces come before each from the third on, and
    /// at last all of them.
    more: Vec<u64>,
}

impl Model for Counts {
    ghost use Rattle.std.specs.Prelude.{List, [], ℕ, None, ◌≡◌};
    ghost use Rattle.vk_transfer.specs.Inner.Numbers.{numbers_of};

    ghost Value = { List ℕ };

    ghost view = { λ c. numbers_of c.first c.more.items };

    ghost invariant = { λ c. c.first ≡ None → c.more.items ≡ [] };
}

/// The part that has a piece.
#[derive(Clone, Copy, Debug, Drop, PartialEq, Eq)]
pub struct FoundPart {
    /// The number of the part.
    pub part: usize,
    /// The number of the piece among those of the part.
    pub number: u64,
}

impl Counts {
    ghost use Rattle.vk_transfer.specs.declared.counts.CopyError.TheVariants.{TooManyPieces};

    /// No parts yet. It takes no memory.
    pub fn new(alloc: Global) -> Counts
        ensures { result ≡ 0 ∷ [] }
    {
        Counts {
            first: None,
            more: Vec::new(alloc),
        }
    }

    /// Counts one more part, of so many pieces. The first one takes no memory.
    ///
    /// # Errors
    /// Where all together are more than a number of 64 bits says, and want of memory. Nothing is
    /// counted then.
    pub fn add(&mut self, pieces: u64) -> Result<(), CopyError>
        ensures more { OnOk result (self.new ≡ self.old ++ (all_counted self.old + pieces) ∷ []) }
        ensures many { IsErrOf result TooManyPieces → 2 ^ 64 ≤ all_counted self.old + pieces }
        ensures err { OnErr result (self.new ≡ self.old) }
    {
        match self.all().checked_add(pieces) {
            Some(all) => {
                if self.first.is_none() {
                    self.first = Some(all);
                } else {
                    self.more.push(all)?;
                }
                Ok(())
            }
            None => Err(CopyError::TooManyPieces),
        }
    }

    /// How many pieces all parts have.
    pub fn all(&self) -> u64
        ensures { result ≡ all_counted self.now }
    {
        match self.first {
            Some(first) => last_of(first, &self.more),
            None => 0,
        }
    }

    /// Finds the part that has the piece of a number: the first at once, and in a time that grows
    /// with the digits of the number of parts where there are more.
    pub fn find(&self, number: u64) -> FoundPart
        requires first { slice_index self.now 0 ≤ number }
        requires last { number < all_counted self.now }
        ensures inside { result.part + 1 < length self.now }
        ensures low { slice_index self.now result.part + result.number ≡ number }
        ensures high { number < slice_index self.now (result.part + 1) }
    {
        let first = self.first.unwrap_or(0);
        if number < first {
            FoundPart { part: 0, number }
        } else {
            find_after(first, &self.more, number)
        }
    }
}

/// The last of some numbers, of which one comes first.
fn last_of(first: u64, more: &[u64]) -> u64
    ensures { result ≡ slice_index (first ∷ more.now) (length more.now) }
{
    if more.is_empty() {
        first
    } else {
        more[more.len() - 1]
    }
}

/// Finds the part of a piece that comes after those of the first part.
fn find_after(first: u64, more: &[u64], number: u64) -> FoundPart
    requires first { first ≤ number }
    requires last { number < slice_index (first ∷ more.now) (length more.now) }
    ensures inside { result.part < length more.now + 1 }
    ensures low { slice_index (0 ∷ first ∷ more.now) result.part + result.number ≡ number }
    ensures high { number < slice_index (first ∷ more.now) result.part }
{
    if number < more[0] {
        FoundPart {
            part: 1,
            number: number - first,
        }
    } else {
        let step = step_at(more, number);
        FoundPart {
            part: step + 2,
            number: number - more[step],
        }
    }
}

/// Where a number lies between two that follow each other.
fn step_at(steps: &[u64], number: u64) -> usize
    requires first { slice_index steps.now 0 ≤ number }
    requires last { number < slice_index steps.now (length steps.now - 1) }
    ensures inside { result + 1 < length steps.now }
    ensures low { slice_index steps.now result ≤ number }
    ensures high { number < slice_index steps.now (result + 1) }
{
    let mut low = 0;
    let mut high = steps.len() - 1;
    while high - low > 1 {
        let middle = low + (high - low) / 2;
        if steps[middle] <= number {
            low = middle;
        } else {
            high = middle;
        }
    }
    low
}
