ghost use Rattle.std.specs.Prelude.{◌≡◌};
ghost use Rattle.vk_lag.specs.Inner.{is_due_of, still_late};

/// A command by which a byte became late.
#[derive(Clone, Copy, PartialEq, Eq, Debug)]
pub struct Writer {
    /// The number of its queue.
    pub queue: u32,
    /// The number of its node: nodes are numbered in reference order.
    pub node: u32,
}

/// A late byte.
#[derive(Clone, Copy, PartialEq, Eq, Debug)]
pub struct Late {
    /// The command that wrote its newest value.
    pub writer: Writer,
    /// The value that memory still has.
    pub value: u8,
}

/// The late bytes with which memory catches up.
#[derive(Clone, Copy, PartialEq, Eq, Debug)]
pub enum Due {
    /// All of them.
    All,
    /// Those that a queue of this number wrote.
    Of(u32),
    /// Those that a command of the same queue before a node wrote.
    Before(Writer),
}

/// Whether memory catches up with what a command wrote.
pub(crate) fn is_due(due: Due, writer: Writer) -> bool
    ensures { result ≡ is_due_of due writer }
{
    match due {
        Due::All => true,
        Due::Of(queue) => writer.queue == queue,
        Due::Before(other) => writer.queue == other.queue && writer.node < other.node,
    }
}

/// The writer of a byte that is late still when memory has caught up with those that are due.
pub(crate) fn still_late(due: Due, writer: Option<Writer>) -> Option<Writer>
    ensures { result ≡ still_late due writer }
{
    match writer {
        Some(writer) => {
            if is_due(due, writer) {
                None
            } else {
                Some(writer)
            }
        }
        None => None,
    }
}
