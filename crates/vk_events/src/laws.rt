//! Laws of what happens, the contract of a function that does nothing.
ghost use Rattle.vk_events.specs.Laws.{HappeningIsUnseen, NothingIsUnseen};

/// What the definitions have happen from one stage of a run to another is what is free at the later
/// one and hadn't happened at the earlier one (`whole`); from a stage to itself that is nothing
/// (`nothing`). So nodes that come may be added one after another, and then all that happens since
/// the stage before is taken.
pub fn happening_is_unseen()
    ensures whole { HappeningIsUnseen }
    ensures nothing { NothingIsUnseen }
{}
