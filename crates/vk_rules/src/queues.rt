ghost use Rattle.std.specs.Prelude.{◌≡◌, ◌&&◌, nat_le, IfSome, is_some, option_and_then};
ghost use Rattle.vk_model.specs.Trace.Point.{Past, command_of, on_host, on_command};
ghost use Rattle.vk_model.specs.Rules.Ids as rules;
ghost use Rattle.vk_model.specs.Trace.PointViews.{action_of, point_of};
ghost use Rattle.vk_rules.specs.Ids.{IsQueue, IsQueueKind, queue_command};

use vk_model::{Action, Cmd, Entry, Point};

/// The greatest number of a queue.
const GREATEST_QUEUE: u32 = 3;

/// QUEUE: a queue that there isn't.
#[derive(Clone, Copy)]
pub struct QueueNumber {
    /// The number of the queue; they are 0 to 3.
    pub queue: u32,
}

/// A command that queues of transfer alone don't have.
#[derive(Clone, Copy)]
pub enum QueueCommand {
    /// A clear of an image.
    Clear,
    /// A set of an event.
    Set,
    /// An await of an event.
    Await,
}

/// QUEUE_KIND: a command on a queue that doesn't have it.
#[derive(Clone, Copy)]
pub struct QueueUse {
    /// The number of the queue, which is 2 or above; queues 0 and 1 have the command.
    pub queue: u32,
    /// The command.
    pub command: QueueCommand,
}

/// QUEUE: the queue is over 3.
pub fn breaks_queue(point: &Point<'_>) -> bool
    ensures { (past : Past) → result ≡ rules.breaks_queue past (point_of point.now) }
{
    queue_of(point).is_some()
}

/// QUEUE: the queue that a point submits to, where there is none of this number.
pub fn queue_of(point: &Point<'_>) -> Option<QueueNumber>
    ensures broken { is_some result ≡ on_host rules.is_over_3 (point_of point.now) }
    ensures reported { IfSome result (IsQueue (action_of point.now.action)) }
{
    match point.action {
        Action::Host(Entry::Submit { queue, .. }) if *queue > GREATEST_QUEUE => {
            Some(QueueNumber { queue: *queue })
        }
        _ => None,
    }
}

/// QUEUE_KIND: a clear, set or await on queue 2 or 3.
pub fn breaks_queue_kind(point: &Point<'_>) -> bool
    ensures { (past : Past) → result ≡ rules.breaks_queue_kind past (point_of point.now) }
{
    queue_kind_of(point).is_some()
}

/// QUEUE_KIND: the command of a point, where its queue doesn't have it.
pub fn queue_kind_of(point: &Point<'_>) -> Option<QueueUse>
    ensures broken { is_some result ≡ (on_command rules.needs_family_0 (point_of point.now) && nat_le 2 point.now.queue) }
    ensures reported { IfSome result (IsQueueKind (point_of point.now)) }
{
    let command = command_of_queue(point)?;
    if point.queue >= 2 {
        Some(QueueUse {
            queue: point.queue,
            command,
        })
    } else {
        None
    }
}

/// The command of a point, where only queues 0 and 1 have it.
fn command_of_queue(point: &Point<'_>) -> Option<QueueCommand>
    ensures { result ≡ option_and_then queue_command (command_of (action_of point.now.action)) }
{
    match point.action {
        Action::Run(Cmd::Clear { .. }) => Some(QueueCommand::Clear),
        Action::Run(Cmd::Set { .. }) => Some(QueueCommand::Set),
        Action::Run(Cmd::Await { .. }) => Some(QueueCommand::Await),
        _ => None,
    }
}
