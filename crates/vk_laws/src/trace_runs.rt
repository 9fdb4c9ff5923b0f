//! The allowed runs of the definitions are runs of the machine, so the law speaks of them.
ghost use Rattle.vk_laws.specs.DefinedRuns.{DefinedRunsAreAllowed, DefinedRunsAreFresh, DefinedRunsAreSettled, DefinedRunsAreWritten, DefinedRunsEnd, DefinedRunsGoOn, DefinedRunsMeanTheTrace, DefinedRunsFollow, EarliestAreOffered, OfferedArePieces};

use crate::tasks::{trace_is_fresh, trace_is_hazard_free, trace_is_modelled, trace_is_settled};
use vk_model::{
    before_is_order, before_is_path, growth_keeps, no_fault_is_sound, pieces_are_byte_writes,
};

/// The runs of the definitions match runs of the machine: allowed ones are allowed there (`allowed`), and one
/// after which nothing may come has run everything (`whole`).
fn defined_runs_match()
    ensures allowed { DefinedRunsAreAllowed }
    ensures whole { DefinedRunsEnd }
{
    no_fault_is_sound();
    growth_keeps();
    before_is_path();
    before_is_order();
}

/// Each run of a trace without a fault that the definitions allow is an allowed run of the machine, with
/// events between its steps, each as soon as it can happen. And after it just those pieces and entries may
/// come next that the definitions offer.
pub fn defined_runs_are_allowed()
    ensures { DefinedRunsAreAllowed }
{
    defined_runs_match();
}

/// In every run of a trace without a fault that the definitions allow: when a piece is offered or an entry
/// may be applied, of the accesses that meet its own the earlier ones have happened and the later ones
/// haven't (`settled`), and what it reads is the model's (`fresh`), where the run's pieces and entries took
/// effect one after another on one memory; and so is what was written last (`written`).
pub fn defined_runs_are_fresh()
    ensures settled { DefinedRunsAreSettled }
    ensures fresh { DefinedRunsAreFresh }
    ensures written { DefinedRunsAreWritten }
{
    pieces_are_byte_writes();
    trace_is_settled();
    trace_is_fresh();
    defined_runs_are_allowed();
}

/// A run of a trace without a fault that the definitions allow is never stuck: where nothing may come next,
/// every entry has been applied and every piece has run (`whole`). And then each byte has the value that
/// the trace leaves in it, where the model defines one (`meaning`).
pub fn defined_runs_end()
    ensures whole { DefinedRunsEnd }
    ensures meaning { DefinedRunsMeanTheTrace }
{
    defined_runs_match();
    pieces_are_byte_writes();
    trace_is_hazard_free();
    trace_is_modelled();
    trace_is_fresh();
}

/// The stage of each allowed run follows its trace: some entries were applied, in reference
/// order, and the others are left; it has counted those applied, and where none of them began a
/// pass, no pass is open.
pub fn defined_runs_follow()
    ensures { DefinedRunsFollow }
{
    growth_keeps();
}

/// While an entry is left in an allowed run of a trace without a fault, it may be applied, or some
/// piece is offered.
pub fn defined_runs_go_on()
    ensures { DefinedRunsGoOn }
{
    defined_runs_end();
}

/// A piece that is offered is one of a command that has come, and hasn't run: its node and its byte
/// writes are there (`pieces`). And one that hasn't run, of the earliest node that has such pieces,
/// is offered (`earliest`).
pub fn offered_are_pieces()
    ensures pieces { OfferedArePieces }
    ensures earliest { EarliestAreOffered }
{
    before_is_order();
}
