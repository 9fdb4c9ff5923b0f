ghost use Rattle.std.specs.Prelude.{◌≡◌, ◌↔◌, IfOk, IsTrue};

use std::alloc::AllocError;

/// A value that a range map keeps. A copy is the value once more, and two values can be compared.
pub trait RangeValue: Drop {
    /// The value once more. The only error is want of memory.
    fn duplicate(&self) -> Result<Self, AllocError>
        ensures { IfOk result (λ copy. copy ≡ self.now) };

    /// Whether the two are one value.
    fn is_same(&self, other: &Self) -> bool
        ensures { IsTrue result ↔ (self.now ≡ other.now) };
}

impl RangeValue for bool {
    fn duplicate(&self) -> Result<bool, AllocError> {
        Ok(*self)
    }

    fn is_same(&self, other: &bool) -> bool {
        *self == *other
    }
}

impl RangeValue for u64 {
    fn duplicate(&self) -> Result<u64, AllocError> {
        Ok(*self)
    }

    fn is_same(&self, other: &u64) -> bool {
        *self == *other
    }
}

impl RangeValue for usize {
    fn duplicate(&self) -> Result<usize, AllocError> {
        Ok(*self)
    }

    fn is_same(&self, other: &usize) -> bool {
        *self == *other
    }
}

impl<T: RangeValue> RangeValue for Option<T> {
    fn duplicate(&self) -> Result<Option<T>, AllocError> {
        match self {
            Some(value) => Ok(Some(value.duplicate()?)),
            None => Ok(None),
        }
    }

    fn is_same(&self, other: &Option<T>) -> bool {
        match (self, other) {
            (Some(value), Some(other)) => value.is_same(other),
            (None, None) => true,
            _ => false,
        }
    }
}
