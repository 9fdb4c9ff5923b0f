//! Laws of what is offered and of what happens, each the contract of a function that does nothing.
ghost use Rattle.vk_offers.specs.Laws.{OffersAgree, OrderComesNext, PointsAreOnQueues, NothingHappens, WaitsMayGo};

use vk_events::happening_is_unseen;
use vk_model::{before_is_order, growth_keeps};
use vk_queues::points_are_new;

/// Each point of an ordered past without a fault may come next after those before it: `Offers` can
/// take them one after another.
pub fn points_come_next()
    ensures { OrderComesNext }
{
    points_are_new();
}

/// Each point of an ordered past without a fault is on one of four queues: `Happenings` can take
/// them, too.
pub fn points_are_on_queues()
    ensures { PointsAreOnQueues }
{}

/// From a stage of a run to itself nothing happens. So where all that has happened is taken, as the
/// points of the next entry are added one after another `Happenings` leads to what happens from the
/// stage before the entry to the one after it.
pub fn nothing_happens()
    ensures { NothingHappens }
{
    happening_is_unseen();
}

/// A wait of the host may be applied exactly where all pieces of commands before it have run, seen
/// from the points before it alone: batches that its past has after it don't matter.
pub fn waits_go()
    ensures { WaitsMayGo }
{
    growth_keeps();
    before_is_order();
}

/// What is offered of a past whose pieces have run so far has the same pieces ready, however it came
/// there.
pub fn offers_agree()
    ensures { OffersAgree }
{}
