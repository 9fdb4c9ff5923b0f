//! Laws of orders, each the contract of a function that does nothing.
ghost use Rattle.vk_queues.specs.Laws.{OrderedIsApart, OrderIsApart, OrderedIsNew, OrderIsNew};

/// No two commands of an ordered past are at one place (`ordered`), nor of reference order
/// (`order`).
pub fn commands_are_apart()
    ensures ordered { OrderedIsApart }
    ensures order { OrderIsApart }
{}

/// Each point of an ordered past is new among the nodes of those before it (`ordered`), and so is
/// each point of reference order (`order`): it can be added to `vk_order::Points`.
pub fn points_are_new()
    ensures ordered { OrderedIsNew }
    ensures order { OrderIsNew }
{}
