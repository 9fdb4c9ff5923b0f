ghost use Rattle.std.specs.Prelude.{◌≡◌, ◌<◌, ◌≤◌, ◌+◌, ◌-◌, ◌↔◌, IsOk, OnOk, OnErr};

use thiserror::Error;

/// More bytes were asked for than are left.
#[derive(Clone, Copy, Debug, Drop, PartialEq, Eq, Error)]
#[error("the heap is full")]
pub struct HeapFull;

/// A heap as a number of bytes, of which some are taken.
#[derive(Clone, Copy, Debug, PartialEq, Eq)]
pub struct Budget {
    /// All bytes of the heap.
    pub size: u64,
    /// The bytes that are taken.
    pub used: u64,
    pub ghost within: { used ≤ size },
}

impl Budget {
    /// A heap of `size` bytes, with none taken.
    pub fn new(size: u64) -> Budget
        ensures size { result.size ≡ size }
        ensures used { result.used ≡ 0 }
    {
        Budget { size, used: 0 }
    }

    /// Takes bytes, or answers `HeapFull` where fewer are left, and changes nothing then.
    pub fn take(&mut self, bytes: u64) -> Result<(), HeapFull>
        ensures fits { IsOk result ↔ (self.old.used + bytes ≤ self.old.size) }
        ensures ok { OnOk result ((self.new.used ≡ self.old.used + bytes) × (self.new.size ≡ self.old.size)) }
        ensures err { OnErr result (self.new ≡ self.old) }
    {
        if bytes > self.size - self.used {
            return Err(HeapFull);
        }
        self.used += bytes;
        Ok(())
    }

    /// Gives back bytes that were taken.
    pub fn give(&mut self, bytes: u64)
        requires { bytes ≤ self.old.used }
        ensures used { self.new.used ≡ self.old.used - bytes }
        ensures size { self.new.size ≡ self.old.size }
    {
        self.used -= bytes;
    }

    /// The bytes that are taken.
    pub fn used(&self) -> u64
        ensures { result ≡ self.now.used }
    {
        self.used
    }
}
