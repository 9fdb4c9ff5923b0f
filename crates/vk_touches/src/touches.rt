ghost use Rattle.std.specs.Prelude.{◌≡◌};
ghost use Rattle.vk_touches.specs.Remembered as remembered;

use std::alloc::AllocError;
use vk_order::Line;
use vk_ranges::RangeValue;

/// A node, by its line and by how many nodes came before it.
#[derive(Clone, Copy)]
pub struct Spot {
    /// Its line.
    pub line: Line,
    /// How many nodes of the line came before it.
    pub place: usize,
    /// How many nodes came before it.
    pub number: usize,
}

impl Spot {
    /// The same by its line and its place there alone.
    pub fn in_line(self) -> vk_order::Spot
        ensures { result ≡ record { line = self.line; place = self.place } }
    {
        vk_order::Spot {
            line: self.line,
            place: self.place,
        }
    }
}

/// A way to touch a byte that a later access is judged against.
#[derive(Clone, Copy)]
pub enum Touch {
    /// A command writes it.
    Write,
    /// The host writes it.
    HostWrite,
    /// The host reads it.
    HostRead,
    /// A command of a queue reads it.
    Read(u32),
}

/// The last reads of a byte by commands of each queue, each by how many commands of the queue came
/// before it.
#[derive(Clone, Copy, PartialEq)]
pub struct QueueReads {
    /// By queue 0.
    pub first: Option<usize>,
    /// By queue 1.
    pub second: Option<usize>,
    /// By queue 2.
    pub third: Option<usize>,
    /// By queue 3.
    pub fourth: Option<usize>,
}

/// What a byte remembers: who touched it last in each way. Contracts see one of these for each byte
/// of a `TouchMap`.
#[derive(Clone, Copy)]
pub struct LastTouches {
    /// The last command that wrote it.
    pub write: Option<Spot>,
    /// Whether the last invalidation of it sees that command's write.
    pub is_invalidated: bool,
    /// The last host entry that wrote it.
    pub host_write: Option<Spot>,
    /// The first host entry that flushed it since then.
    pub flush: Option<Spot>,
    /// The last layout transition of it.
    pub transition: Option<Spot>,
    /// The last host entry that read it, by how many came before it.
    pub host_read: Option<usize>,
    /// The last command of each queue that read it.
    pub reads: QueueReads,
}

impl QueueReads {
    /// After a read by the command of a queue that has this place.
    pub(crate) fn with(self, queue: u32, place: usize) -> QueueReads
        ensures { result ≡ remembered.with_read self queue place }
    {
        let place = Some(place);
        match queue {
            0 => QueueReads {
                first: place,
                ..self
            },
            1 => QueueReads {
                second: place,
                ..self
            },
            2 => QueueReads {
                third: place,
                ..self
            },
            3 => QueueReads {
                fourth: place,
                ..self
            },
            _ => self,
        }
    }
}

impl RangeValue for Spot {
    fn duplicate(&self) -> Result<Spot, AllocError> {
        Ok(*self)
    }

    fn is_same(&self, other: &Spot) -> bool {
        self.line.is(other.line) && self.place == other.place && self.number == other.number
    }
}

impl RangeValue for QueueReads {
    fn duplicate(&self) -> Result<QueueReads, AllocError> {
        Ok(*self)
    }

    fn is_same(&self, other: &QueueReads) -> bool {
        *self == *other
    }
}
