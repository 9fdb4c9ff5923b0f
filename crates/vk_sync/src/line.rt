ghost use Rattle.std.specs.Prelude.{◌≡◌, ◌<◌, ◌++◌, ◌∷◌, [], ℕ, List};
ghost use Rattle.std.specs.Prelude.{OnOk, OnErr, Some, length, slice_get};

use std::alloc::{AllocError, Global};
use std::marker::Model;

/// The numbers of a queue's commands, in order. Contracts see the list of them.
#[derive(Drop)]
pub(crate) struct Line {
    numbers: Vec<usize>,
}

impl Model for Line {
    ghost use Rattle.std.specs.Prelude.{List, ℕ};

    ghost Value = { List ℕ };

    ghost view = { λ l. l.numbers.items };
}

impl Line {
    /// No numbers.
    pub(crate) fn new(alloc: Global) -> Line
        ensures { result ≡ [] }
    {
        Line {
            numbers: Vec::new(alloc),
        }
    }

    /// How many there are.
    pub(crate) fn len(&self) -> usize
        ensures { result ≡ length self.now }
    {
        self.numbers.len()
    }

    /// One of them, by its place.
    pub(crate) fn at(&self, place: usize) -> usize
        requires { place < length self.now }
        ensures { slice_get self.now place ≡ Some result }
    {
        self.numbers[place]
    }

    /// Appends a number. The only error is want of memory, which leaves them as they were.
    pub(crate) fn push(&mut self, number: usize) -> Result<(), AllocError>
        ensures ok { OnOk result (self.new ≡ self.old ++ number ∷ []) }
        ensures err { OnErr result (self.new ≡ self.old) }
    {
        self.numbers.push(number)?;
        Ok(())
    }

    /// Takes the last number away.
    pub(crate) fn pop(&mut self)
        ensures { (numbers : List ℕ) (last : ℕ)
            → self.old ≡ numbers ++ last ∷ [] → self.new ≡ numbers }
    {
        self.numbers.pop();
    }
}
