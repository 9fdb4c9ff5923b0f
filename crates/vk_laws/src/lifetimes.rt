//! What lives in the allowed runs of a trace without a fault: laws for a device that drops a
//! resource as soon as it has ended.
ghost use Rattle.vk_laws.specs.Lifetimes.{CommandsNameLive, EntriesNameLive, PiecesBeforeHaveRun, PiecesStayLive};

use crate::direct_runs::pieces_stay_inside;
use vk_model::{
    before_is_order, before_is_path, growth_keeps, no_fault_is_sound, pieces_are_byte_writes,
};

/// In an allowed run of a trace without a fault, where a host entry has been applied, all pieces of
/// the commands before its node have run.
pub fn pieces_before_have_run()
    ensures { PiecesBeforeHaveRun }
{
    no_fault_is_sound();
    growth_keeps();
    before_is_path();
    before_is_order();
}

/// In an allowed run of a trace without a fault a piece that is offered writes and copies bytes of
/// resources that are live.
pub fn pieces_stay_live()
    ensures { PiecesStayLive }
{
    no_fault_is_sound();
    growth_keeps();
    before_is_path();
    before_is_order();
    pieces_are_byte_writes();
    pieces_stay_inside();
}

/// In an allowed run of a trace without a fault the next entry names live objects, each of the kind
/// that it needs.
pub fn entries_name_live()
    ensures { EntriesNameLive }
{
    no_fault_is_sound();
    growth_keeps();
}

/// In an allowed run of a trace without a fault a command that has a piece that hasn't run names
/// live objects, each of the kind that it needs.
pub fn commands_name_live()
    ensures { CommandsNameLive }
{
    no_fault_is_sound();
    growth_keeps();
    before_is_path();
    before_is_order();
}
