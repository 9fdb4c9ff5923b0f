//! What a scheduler picks is an allowed run, whatever it answers.
ghost use Rattle.vk_laws.specs.PickedRuns.{OptionsAreAllowed, OptionsAreThere, PicksAreRuns, PicksLeadOn};

use crate::trace_runs::defined_runs_go_on;

/// Before an entry each option that a scheduler has is allowed (`allowed`), and in a run of a trace
/// without a fault it has one (`there`). What it picks, whatever it answers, leads to where the
/// entry may be applied (`lead_on`); so what it picks for a trace is an allowed run of it (`runs`).
pub fn picks_are_runs()
    ensures allowed { OptionsAreAllowed }
    ensures there { OptionsAreThere }
    ensures lead_on { PicksLeadOn }
    ensures runs { PicksAreRuns }
{
    defined_runs_go_on();
}
