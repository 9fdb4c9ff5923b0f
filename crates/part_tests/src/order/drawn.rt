//! Points of tests, as values of their own.

ghost use Rattle.std.specs.Prelude.{◌≡◌, ◌+◌, ◌*◌};
ghost use Rattle.vk_model.specs.declared.command.Cmd.{Cmd as AnyCmd};
ghost use Rattle.vk_model.specs.Trace.Point.{Run};
ghost use Rattle.vk_model.specs.Trace.PointViews.{action_of};

use vk_model::{Action, Cmd, Entry, Point, SemaphoreSubmit};

/// What happens at a point.
#[derive(Drop)]
pub enum Happening {
    /// The host does an entry.
    Host(Entry),
    /// A batch waits.
    Wait(SemaphoreSubmit),
    /// A command runs.
    Run(Cmd),
    /// A batch signals.
    Signal(SemaphoreSubmit),
}

/// A point.
#[derive(Drop)]
pub struct Drawn {
    /// The number of its entry.
    pub entry: usize,
    /// The number of its batch in the submit.
    pub batch: usize,
    /// Its place in the batch.
    pub place: usize,
    /// The queue of the batch.
    pub queue: u32,
    /// What happens there.
    pub happening: Happening,
}

/// The point with a number. Each command has a place in a batch of its own, by its number.
pub fn point_of<'a>(number: usize, drawn: &'a Drawn) -> Point<'a>
    ensures { (c : AnyCmd) → action_of result.action ≡ Run c → result.place + 8 * result.batch ≡ number }
{
    let Drawn {
        entry,
        batch,
        place,
        queue,
        happening,
    } = drawn;
    let (action, batch, place) = match happening {
        Happening::Host(entry) => (Action::Host(entry), *batch, *place),
        Happening::Wait(wait) => (Action::Wait(wait), *batch, *place),
        Happening::Signal(signal) => (Action::Signal(signal), *batch, *place),
        Happening::Run(command) => (Action::Run(command), number / 8, number % 8),
    };
    Point {
        entry: *entry,
        batch,
        place,
        queue: *queue,
        action,
    }
}
