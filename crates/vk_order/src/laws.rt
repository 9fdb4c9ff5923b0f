//! Laws of order and visibility, each the contract of a function that does nothing.
ghost use Rattle.vk_order.specs.Prefixes.{HostPrefix, WaitPrefix, SignalPrefix, CommandPrefix, BarrierPrefix, SetPrefix, AwaitPrefix, LinePrefix};
ghost use Rattle.vk_order.specs.Places.{ApartIsPlaced};
ghost use Rattle.vk_order.specs.Submission.{CommandsFollow, OrderedAreSubmitted, OrderIsSubmitted};
ghost use Rattle.vk_order.specs.Visibility.{CommandsSeen, HostSeen, SeenThrough, LastWriteSeen};
ghost use Rattle.vk_order.specs.Barriers.{ElementsComeAlone, ElementsSeeAlone};
ghost use Rattle.vk_order.specs.Limited.{LimitedSeen};
ghost use Rattle.vk_order.specs.Cached.{FlushedSeen, UnflushedSeen, InvalidatedSeen, UninvalidatedSeen};
ghost use Rattle.vk_order.specs.Counterexamples.{Counterexamples};

use vk_model::{growth_keeps, order_is_structured};

/// What is before a node of each kind, by what is before earlier nodes; and that of the nodes of
/// one line the first ones are before a node.
pub fn prefixes()
    ensures host { HostPrefix }
    ensures wait { WaitPrefix }
    ensures signal { SignalPrefix }
    ensures command { CommandPrefix }
    ensures barrier { BarrierPrefix }
    ensures set { SetPrefix }
    ensures awaited { AwaitPrefix }
    ensures line { LinePrefix }
{}

/// Where no two commands are at one place, the elements of one command are together.
pub fn elements_are_together()
    ensures { ApartIsPlaced }
{}

/// What is before a command is before each later command of its queue (`commands`), where commands
/// come after their submits; those of an ordered past do (`ordered`), and those of reference order
/// (`order`).
pub fn commands_follow()
    ensures commands { CommandsFollow }
    ensures ordered { OrderedAreSubmitted }
    ensures order { OrderIsSubmitted }
{
    order_is_structured();
}

/// An access that sees the later of two commands' writes on a queue sees the earlier one's.
pub fn commands_seen()
    ensures { CommandsSeen }
{}

/// An access that sees the later of two host writes sees the earlier one.
pub fn host_seen()
    ensures { HostSeen }
{}

/// An access that sees a write that isn't the host's sees each write that this one sees.
pub fn seen_through()
    ensures { SeenThrough }
{}

/// Where no point has a write after write, an access that sees the last write by a command or a
/// transition sees each write of the byte before it.
pub fn last_write_seen()
    ensures { LastWriteSeen }
{
    growth_keeps();
}

/// The elements of one barrier don't lead to one another: what is before each of them, and what it
/// sees as a transition, is what it would be alone.
pub fn elements_are_alone()
    ensures before { ElementsComeAlone }
    ensures seen { ElementsSeeAlone }
{}

/// Where dependencies may be on parts of memory, an access by a node that comes next sees a write
/// exactly where the write, or a dependency on a part that makes it available, reaches a node that
/// makes it visible.
pub fn limited_seen()
    ensures { LimitedSeen }
{}

/// Of memory that the host reaches through a cache a command or transition sees a host write as if
/// the first flush after it had made it, and none that wasn't flushed.
pub fn flushed_seen()
    ensures flushed { FlushedSeen }
    ensures unflushed { UnflushedSeen }
{}

/// Of such memory a host read sees what one at the last invalidation before it would see of memory
/// without a cache, and nothing where there is none.
pub fn invalidated_seen()
    ensures invalidated { InvalidatedSeen }
    ensures uninvalidated { UninvalidatedSeen }
{}

/// Premises and parts of lines without which the laws would be false.
pub fn counterexamples()
    ensures { Counterexamples }
{}
