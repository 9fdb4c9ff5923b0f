//! Laws of the abstract machine, each the contract of a function that does nothing.
ghost use Rattle.vk_laws.specs.EveryOrder.{FreshLaw, SettledLaw, WholeCommandsLaw, WrittenLaw};
ghost use Rattle.vk_laws.specs.Growth.{EagerLaw, GrowthLaw};
ghost use Rattle.vk_laws.specs.Example.{MeetsPremises};

/// In every allowed order of tasks without hazards, through caches that do what events ask: when a task
/// comes next, of the accesses that meet its own the earlier ones are done and the later ones aren't
/// (`settled`), and it reads the model's bytes (`fresh`); and what was written last is the model's
/// (`written`).
pub fn every_order()
    ensures settled { SettledLaw }
    ensures fresh { FreshLaw }
    ensures written { WrittenLaw }
{}

/// Whole commands, one at a time in reference order, are a model of the tasks that they are cut into.
pub fn whole_commands()
    ensures { WholeCommandsLaw }
{}

/// What a run has reached it has reached in a longer trace too.
pub fn runs_carry_over()
    ensures { GrowthLaw }
{}

/// Where events happen as soon as they can, a task waits for pieces and host entries alone.
pub fn pieces_suffice()
    ensures { EagerLaw }
{}

/// There is a trace on two queues, with a dependency between them, that meets every premise of the law,
/// and a run of it in which a queue's cache is stale until an event makes the write visible.
pub fn premises_can_be_met()
    ensures { MeetsPremises }
{}
