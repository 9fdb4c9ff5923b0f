ghost use Rattle.std.specs.Prelude.{◌≡◌, ◌+◌, ◌&&◌, IfSome, IfNone, false, not};
ghost use Rattle.vk_model.specs.Basics.{has_some};
ghost use Rattle.vk_model.specs.World.Bytes as world;
ghost use Rattle.vk_model.specs.World.Ownership as ownership;
ghost use Rattle.vk_model.specs.Sync.Edge as edge;
ghost use Rattle.vk_model.specs.Sync.Seen as seen;
ghost use Rattle.vk_model.specs.Run.CachedRuns.{is_synchronization, any_access};
ghost use Rattle.vk_order.specs.NodeViews.{act_of};
ghost use Rattle.vk_events.specs.Happens.{is_on};
ghost use Rattle.vk_events.specs.Inner.Described.{IsOf};

use bitflags::Flags;
use vk_model::{Accesses, Dependency, Element, Length, Stages, SubresourceRange};
use vk_order::{Act, Row, is_acquire, is_release};

/// The accesses by which commands write.
const WRITES: Accesses = Accesses(Accesses::TRANSFER_WRITE.0 | Accesses::MEMORY_WRITE.0);

/// The stages in which commands run.
const COMMANDS: Stages = Stages(Stages::TRANSFER.0 | Stages::ALL_COMMANDS.0);

/// All kinds of access.
const ANY: Accesses = Accesses(
    Accesses::TRANSFER_READ.0
        | Accesses::TRANSFER_WRITE.0
        | Accesses::HOST_READ.0
        | Accesses::HOST_WRITE.0
        | Accesses::MEMORY_READ.0
        | Accesses::MEMORY_WRITE.0,
);

/// Which bytes an event is on.
#[derive(Clone, Copy, PartialEq, Eq, Debug)]
pub enum Range {
    /// All memory.
    All,
    /// A range of a buffer.
    Buffer {
        /// The id of the buffer.
        buffer: u32,
        /// In bytes.
        offset: u64,
        /// How many bytes the range has.
        size: Length,
    },
    /// Levels and layers of an image.
    Image {
        /// The id of the image.
        image: u32,
        /// The levels and layers.
        range: SubresourceRange,
    },
}

/// A dependency, a wait or a signal that happens, as far as caches go by it.
#[derive(Clone, Copy, PartialEq, Eq, Debug)]
pub struct Event {
    /// The number of its node.
    pub number: usize,
    /// The number of its queue.
    pub queue: u32,
    /// How many commands of the queue came before it, in submission order.
    pub place: usize,
    /// Whether it makes available what earlier commands of its queue wrote of the bytes in its range.
    pub makes_available: bool,
    /// Whether it makes available writes of the bytes in its range visible.
    pub makes_visible: bool,
    /// Which bytes it is on.
    pub range: Range,
}

impl Event {
    /// The event of a row that has this number, after so many commands of its queue; none of a
    /// command or of the host.
    pub(crate) fn of(row: &Row<'_>, number: usize, place: usize) -> Option<Event>
        ensures none { IfNone result (is_synchronization (act_of row.now.act) ≡ false) }
        ensures some { IfSome result (λ e. IsOf e number row.now.point.queue place (act_of row.now.act)) }
    {
        let queue = row.point.queue;
        let (makes_available, makes_visible, range) = match row.act {
            Act::Hosts(_) | Act::Runs(_) => return None,
            Act::Waits(_) => (false, true, Range::All),
            Act::Signals(signal) => (has_commands(signal.stages), false, Range::All),
            Act::Barrier(element) => (
                makes_available(queue, element),
                makes_visible(queue, element),
                range_of(element),
            ),
            Act::Set(_, _, dependency) => (frees(dependency), false, Range::All),
            Act::Await(_, _, dependency) => (
                false,
                dependency.destination_accesses.intersects(ANY),
                Range::All,
            ),
        };
        Some(Event {
            number,
            queue,
            place,
            makes_available,
            makes_visible,
            range,
        })
    }
}

/// Whether commands run in some of these stages.
fn has_commands(stages: Stages) -> bool
    ensures { result ≡ has_some stages.0 (edge.transfer_stage + edge.all_commands) }
{
    stages.intersects(COMMANDS)
}

/// Whether a dependency makes available what commands before it wrote: they run in its source stages,
/// and it has an access by which they write.
fn frees(dependency: &Dependency) -> bool
    ensures { result ≡ (has_some dependency.now.source_stages.0 (edge.transfer_stage + edge.all_commands) && has_some dependency.now.source_accesses.0 (seen.command_mask seen.Write)) }
{
    has_commands(dependency.source_stages) && dependency.source_accesses.intersects(WRITES)
}

/// Whether an element of a barrier makes commands' writes in its range available.
fn makes_available(queue: u32, element: &Element) -> bool
    ensures { result ≡ (not (ownership.is_acquire queue element.now)
        && (has_some (ownership.dependency_of element.now).source_stages.0 (edge.transfer_stage + edge.all_commands) && has_some (ownership.dependency_of element.now).source_accesses.0 (seen.command_mask seen.Write))) }
{
    !is_acquire(queue, element) && frees(&dependency_of(element))
}

/// Whether it makes available writes in its range visible, to whichever accesses.
fn makes_visible(queue: u32, element: &Element) -> bool
    ensures { result ≡ (not (ownership.is_release queue element.now) && has_some (ownership.dependency_of element.now).destination_accesses.0 any_access) }
{
    !is_release(queue, element) && dependency_of(element).destination_accesses.intersects(ANY)
}

/// The scopes of an element.
fn dependency_of(element: &Element) -> Dependency
    ensures { result ≡ ownership.dependency_of element.now }
{
    match element {
        Element::Memory(dependency) => *dependency,
        Element::Buffer(buffer) => buffer.dependency,
        Element::Image(image) => image.dependency,
    }
}

/// Which bytes an element is on.
fn range_of(element: &Element) -> Range
    ensures { (b : world.Byte) → seen.covers element.now b ≡ is_on result b }
{
    match element {
        Element::Memory(_) => Range::All,
        Element::Buffer(buffer) => Range::Buffer {
            buffer: buffer.buffer,
            offset: buffer.offset,
            size: buffer.size,
        },
        Element::Image(image) => Range::Image {
            image: image.image,
            range: image.range,
        },
    }
}
