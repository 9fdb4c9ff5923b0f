ghost use Rattle.std.specs.Prelude.{◌≡◌};
ghost use Rattle.vk_touches.specs.Remembered as remembered;
ghost use Rattle.vk_touches.specs.TouchMaps.{reads_of};

use crate::touches::QueueReads;
use std::alloc::AllocError;
use vk_ranges::RangeValue;

/// What a byte remembers of reads.
#[derive(Clone, Copy)]
pub(crate) struct LastReads {
    /// The last host entry that read it, by how many came before it.
    pub(crate) by_host: Option<usize>,
    /// The last command of each queue that read it.
    pub(crate) by_queues: QueueReads,
}

impl LastReads {
    /// Of a byte that nobody read.
    pub(crate) fn none() -> LastReads
        ensures { result ≡ reads_of remembered.untouched }
    {
        LastReads {
            by_host: None,
            by_queues: QueueReads {
                first: None,
                second: None,
                third: None,
                fourth: None,
            },
        }
    }

    /// After the host entry before which this many came has read the byte.
    pub(crate) fn with_host(self, place: usize) -> LastReads
        ensures { result ≡ record { by_host = Some place; by_queues = self.by_queues } }
    {
        LastReads {
            by_host: Some(place),
            ..self
        }
    }

    /// After the command of a queue before which this many came on it has read the byte.
    pub(crate) fn with_command(self, queue: u32, place: usize) -> LastReads
        ensures { result ≡ record { by_host = self.by_host; by_queues = remembered.with_read self.by_queues queue place } }
    {
        LastReads {
            by_queues: self.by_queues.with(queue, place),
            ..self
        }
    }
}

impl RangeValue for LastReads {
    fn duplicate(&self) -> Result<LastReads, AllocError> {
        Ok(*self)
    }

    fn is_same(&self, other: &LastReads) -> bool {
        self.by_host.is_same(&other.by_host) && self.by_queues.is_same(&other.by_queues)
    }
}
