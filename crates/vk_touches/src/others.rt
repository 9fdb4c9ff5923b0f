ghost use Rattle.std.specs.Prelude.{◌≡◌};
ghost use Rattle.vk_touches.specs.declared.touches.Touch.TheVariants as touch;
ghost use Rattle.vk_touches.specs.Remembered as remembered;
ghost use Rattle.vk_touches.specs.TouchMaps.{others_of, without_reads};

use crate::touches::Spot;
use std::alloc::AllocError;
use vk_ranges::RangeValue;

/// What a byte remembers but for reads and for writes by commands.
#[derive(Clone, Copy)]
pub(crate) struct OtherTouches {
    /// The last host entry that wrote it.
    pub(crate) host_write: Option<Spot>,
    /// The first host entry that flushed it since then.
    pub(crate) flush: Option<Spot>,
    /// The last layout transition of it.
    pub(crate) transition: Option<Spot>,
}

impl OtherTouches {
    /// Of a byte that nobody touched.
    pub(crate) fn none() -> OtherTouches
        ensures { result ≡ others_of remembered.untouched }
    {
        OtherTouches {
            host_write: None,
            flush: None,
            transition: None,
        }
    }

    /// After the host entry of a spot has written the byte.
    pub(crate) fn written(self, spot: Spot) -> OtherTouches
        ensures { result ≡ others_of (remembered.with_touch (without_reads self) touch.HostWrite spot) }
    {
        OtherTouches {
            host_write: Some(spot),
            flush: None,
            ..self
        }
    }

    /// After the host entry of a spot has flushed the byte.
    pub(crate) fn flushed(self, spot: Spot) -> OtherTouches
        ensures { result ≡ others_of (remembered.with_flush (without_reads self) spot) }
    {
        OtherTouches {
            flush: self.flush.or(Some(spot)),
            ..self
        }
    }

    /// After the layout transition of a spot has read and written the byte.
    pub(crate) fn transitioned(self, spot: Spot) -> OtherTouches
        ensures { result ≡ others_of (remembered.with_transition (without_reads self) spot) }
    {
        OtherTouches {
            transition: Some(spot),
            ..self
        }
    }
}

impl RangeValue for OtherTouches {
    fn duplicate(&self) -> Result<OtherTouches, AllocError> {
        Ok(*self)
    }

    fn is_same(&self, other: &OtherTouches) -> bool {
        if !self.host_write.is_same(&other.host_write) || !self.flush.is_same(&other.flush) {
            return false;
        }
        self.transition.is_same(&other.transition)
    }
}
