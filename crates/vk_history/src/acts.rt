ghost use Rattle.std.specs.Prelude.{◌≡◌};
ghost use Rattle.vk_model.specs.Trace.PointViews.{action_of};
ghost use Rattle.vk_order.specs.NodeViews.{act_of};
ghost use Rattle.vk_touches.specs.Touched.{act_next};

use vk_model::{Action, Point};
use vk_order::Act;

/// The act of a point that has a single one.
pub fn act_of<'a>(point: &Point<'a>) -> Act<'a>
    ensures { act_of result ≡ act_next (action_of point.now.action) }
{
    match point.action {
        Action::Host(entry) => Act::Hosts(entry),
        Action::Wait(wait) => Act::Waits(wait),
        Action::Run(command) => Act::Runs(command),
        Action::Signal(signal) => Act::Signals(signal),
    }
}
