ghost use Rattle.std.specs.Prelude.{IfOk, MatchOption};
ghost use Rattle.vk_model.specs.Trace.Order.{order};
ghost use Rattle.vk_hazards.specs.Until.{IsUntil, IsNowhere};

use crate::before::points_until;
use crate::past::Past;
use std::alloc::{AllocError, Global};
use vk_model::{At, Entry};

impl<'a> Past<'a> {
    /// The points of a trace in reference order, up to and with the one at this place; none
    /// where no point is. The only error is want of memory.
    pub fn until(
        alloc: Global,
        entries: &'a [Entry],
        at: At,
    ) -> Result<Option<Past<'a>>, AllocError>
        ensures { IfOk result (λ found. MatchOption found (IsNowhere (order entries.now) at) (IsUntil (order entries.now) at)) }
    {
        match points_until(alloc, entries, at)? {
            Some(points) => {
                let past = Past::of(alloc, points)?;
                Ok(Some(past))
            }
            None => Ok(None),
        }
    }
}
