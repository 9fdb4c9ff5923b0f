//! Laws of traces: what the rules on hazards say of two nodes, each the contract of a function that does nothing.
ghost use Rattle.vk_laws.specs.Trace.{AccessesInOrder, CommandsStay, HostInOrder, NoHazardLaw, SeenIsBefore};

use crate::machine::every_order;
use vk_model::{
    before_is_order, before_is_path, growth_keeps, no_fault_is_unbroken, pieces_are_byte_writes,
    pieces_write_apart,
};

/// In a past without a fault no node of a point has a hazard with an earlier node, commands and host
/// accesses alike: what one reads and the other then writes is ordered, and what one writes is
/// visible to the other, among all nodes of the past.
pub fn no_hazard()
    ensures { NoHazardLaw }
{
    no_fault_is_unbroken();
    growth_keeps();
}

/// What an access has seen is before it, so a memory dependency is an execution dependency.
pub fn seen_is_before()
    ensures { SeenIsBefore }
{
    before_is_path();
    before_is_order();
}

/// Host entries come one after another.
pub fn host_in_order()
    ensures { HostInOrder }
{
    before_is_path();
}

/// What a command of a past without a fault reads and writes stays as it was at its own point.
pub fn commands_stay()
    ensures { CommandsStay }
{
    no_fault_is_unbroken();
}

/// In a past without a fault, of two commands or host entries anywhere in it that access a byte, not both
/// only reading, the earlier one comes before the other in every allowed order.
pub fn accesses_in_order()
    ensures { AccessesInOrder }
{
    commands_stay();
    no_hazard();
    seen_is_before();
    host_in_order();
    growth_keeps();
}
