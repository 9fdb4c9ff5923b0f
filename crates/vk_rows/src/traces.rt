ghost use Rattle.vk_rows.specs.Uploads.{Uploads};
ghost use Rattle.vk_rows.specs.Objects.{Objects};
ghost use Rattle.vk_rows.specs.Images.{Images};
ghost use Rattle.vk_rows.specs.Queues.{Queues};
ghost use Rattle.vk_rows.specs.Pools.{Pools};
ghost use Rattle.vk_rows.specs.Ahead.{Ahead};
ghost use Rattle.vk_rows.specs.EasilyMistaken.{EasilyMistaken};
ghost use Rattle.vk_rows.specs.Misread.{Misread};
ghost use Rattle.vk_rows.specs.RulesOfObjects.{RulesOfObjects};
ghost use Rattle.vk_rows.specs.RulesOfCommands.{RulesOfCommands};
ghost use Rattle.vk_rows.specs.RulesOfOrder.{RulesOfOrder};
ghost use Rattle.vk_rows.specs.RulesOfAccess.{RulesOfAccess};

/// Buffers that commands write and the host reads.
pub fn uploads()
    ensures { Uploads }
{}

/// Ids, sizes, memory types and places.
pub fn objects()
    ensures { Objects }
{}

/// Layouts, transitions and copies of images.
pub fn images()
    ensures { Images }
{}

/// Queues, semaphores, events and ownership.
pub fn queues()
    ensures { Queues }
{}

/// Pools and their defragmentation.
pub fn pools()
    ensures { Pools }
{}

/// Commands inside a pass, and waits ahead of their signals.
pub fn ahead()
    ensures { Ahead }
{}

/// What is easily mistaken in the definitions: a trace for each reading, and its corrected trace.
pub fn easily_mistaken()
    ensures { EasilyMistaken }
{}

/// Wrong readings of the definitions: a trace that each judges otherwise, and its corrected trace.
pub fn misread()
    ensures { Misread }
{}

/// Each rule on objects, broken alone and corrected.
pub fn rules_of_objects()
    ensures { RulesOfObjects }
{}

/// Each rule on commands, broken alone and corrected.
pub fn rules_of_commands()
    ensures { RulesOfCommands }
{}

/// Each rule on events and semaphores, broken alone and corrected.
pub fn rules_of_order()
    ensures { RulesOfOrder }
{}

/// Each rule on mappings, passes, hazards and ends, broken alone and corrected.
pub fn rules_of_access()
    ensures { RulesOfAccess }
{}
