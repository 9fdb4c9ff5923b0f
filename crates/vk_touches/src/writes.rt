ghost use Rattle.std.specs.Prelude.{◌≡◌, ◌&&◌, IfOk, is_some, not};
ghost use Rattle.vk_order.specs.declared.lines.Line.TheVariants.{Commands as OfCommands};
ghost use Rattle.vk_touches.specs.declared.touches.Touch.TheVariants as touch;
ghost use Rattle.vk_touches.specs.Remembered as remembered;
ghost use Rattle.vk_touches.specs.TouchMaps.{with_write_alone, write_of};

use crate::touches::Spot;
use std::alloc::AllocError;
use std::marker::Model;
use vk_order::Line;
use vk_ranges::RangeValue;

/// What a byte remembers of writes by commands.
#[derive(Clone, Copy)]
pub(crate) struct LastWrite {
    /// The last command that wrote it.
    pub(crate) write: Option<Spot>,
    /// Whether the last invalidation of it sees that command's write.
    pub(crate) is_invalidated: bool,
}

impl LastWrite {
    /// Whether a command wrote it, and the last invalidation of it doesn't see that.
    pub(crate) fn is_stale(self) -> bool
        ensures { result ≡ (is_some self.write && not self.is_invalidated) }
    {
        self.write.is_some() && !self.is_invalidated
    }

    /// To be kept after a host entry has invalidated the byte, which sees the last write or not.
    pub(crate) fn invalidated(self, is_invalidated: bool) -> Result<KeptWrite, AllocError>
        ensures { IfOk result (λ kept. kept ≡ write_of (remembered.with_invalidation (with_write_alone self) is_invalidated)) }
    {
        match self.write {
            Some(spot) => {
                let kept = KeptWrite::by(spot)?;
                Ok(KeptWrite {
                    is_invalidated,
                    ..kept
                })
            }
            None => Ok(KeptWrite {
                is_invalidated,
                ..KeptWrite::none()
            }),
        }
    }
}

/// A `LastWrite` in less memory than the `Option` in it and its numbers of 64 bits take: there is one
/// for each run of bytes. Contracts see the `LastWrite`.
#[derive(Drop)]
pub(crate) struct KeptWrite {
    place: u32,
    number: u32,
    /// The queue of the last command that wrote it, where there is one.
    queue: u8,
    is_written: bool,
    is_invalidated: bool,
}

impl Model for KeptWrite {
    ghost use Rattle.vk_touches.specs.declared.writes.LastWrite.{LastWrite as AnyWrite};
    ghost use Rattle.vk_touches.specs.TouchMaps.{kept_spot};

    ghost Value = { AnyWrite };

    ghost view = { λ m. record { write = kept_spot m.is_written m.queue m.place m.number; is_invalidated = m.is_invalidated } };
}

impl KeptWrite {
    /// Of a byte that no command wrote.
    pub(crate) fn none() -> KeptWrite
        ensures { result ≡ write_of remembered.untouched }
    {
        KeptWrite {
            place: 0,
            number: 0,
            queue: 0,
            is_written: false,
            is_invalidated: false,
        }
    }

    /// After the command of a spot has written the byte. A number past 32 bits is answered as want of
    /// memory: no memory holds so many nodes. So is a spot of no command of one of the first 256
    /// queues.
    pub(crate) fn by(spot: Spot) -> Result<KeptWrite, AllocError>
        ensures { IfOk result (λ kept. kept ≡ write_of (remembered.with_touch remembered.untouched touch.Write spot)) }
    {
        let queue = queue_of(spot.line)?;
        let place = short(spot.place)?;
        let number = short(spot.number)?;
        Ok(KeptWrite {
            place,
            number,
            queue,
            is_written: true,
            is_invalidated: false,
        })
    }

    /// What is kept.
    #[inline(always)]
    pub(crate) fn last(&self) -> LastWrite
        ensures { result ≡ self.now }
    {
        LastWrite {
            write: self.write(),
            is_invalidated: self.is_invalidated,
        }
    }

    /// The last command that wrote it.
    #[inline(always)]
    pub(crate) fn write(&self) -> Option<Spot>
        ensures { result ≡ self.now.write }
    {
        if !self.is_written {
            return None;
        }
        Some(Spot {
            line: Line::Commands(u32::from(self.queue)),
            place: self.place as usize,
            number: self.number as usize,
        })
    }
}

/// The queue of a line of commands, in 8 bits.
fn queue_of(line: Line) -> Result<u8, AllocError>
    ensures { IfOk result (λ queue. OfCommands queue ≡ line) }
{
    match line {
        Line::Commands(queue) => match u8::try_from(queue) {
            Ok(queue) => Ok(queue),
            Err(_) => Err(AllocError),
        },
        _ => Err(AllocError),
    }
}

/// A number in 32 bits.
fn short(number: usize) -> Result<u32, AllocError>
    ensures { IfOk result (λ short. short ≡ number) }
{
    match u32::try_from(number) {
        Ok(short) => Ok(short),
        Err(_) => Err(AllocError),
    }
}

impl RangeValue for KeptWrite {
    fn duplicate(&self) -> Result<KeptWrite, AllocError> {
        Ok(KeptWrite {
            place: self.place,
            number: self.number,
            queue: self.queue,
            is_written: self.is_written,
            is_invalidated: self.is_invalidated,
        })
    }

    fn is_same(&self, other: &KeptWrite) -> bool {
        self.is_invalidated == other.is_invalidated && self.write().is_same(&other.write())
    }
}
