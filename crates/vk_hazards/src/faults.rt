ghost use Rattle.std.specs.Prelude.{IfOk, MatchOption, Some};
ghost use Rattle.vk_model.specs.Trace.Order.{order};
ghost use Rattle.vk_hazards.specs.declared.facts.Fact.TheVariants as fact_of;
ghost use Rattle.vk_hazards.specs.Facts.{IsReportedOf};
ghost use Rattle.vk_hazards.specs.Until.{IsUntil, IsNowhere};
ghost use Rattle.vk_hazards.specs.Faults.{AreLinksAt, AreLinksOf};

use crate::before::points_until;
use crate::facts::Fact;
use crate::hazards::HazardFact;
use crate::links::Links;
use crate::nodes::Nodes;
use std::alloc::{AllocError, Global};
use vk_model::{At, Entry, Rule};

/// Which link of a hazard is missing that is reported of the point at which a trace is refused, and
/// which nodes the others are by. The only error is want of memory.
pub fn links_of_fault<'a>(
    alloc: Global,
    entries: &'a [Entry],
    at: At,
    rule: Rule,
    fact: &HazardFact<'a>,
) -> Result<Links<'a>, AllocError>
    requires { IsReportedOf entries.now at rule (Some (fact_of.Hazard fact.now)) }
    ensures { IfOk result (AreLinksAt entries.now at fact.now) }
{
    let Some(nodes) = Nodes::until(alloc, entries, at)? else {
        unreachable!();
    };
    let links = nodes.links(fact)?;
    Ok(links)
}

/// The links of the hazard that is reported of the point at which a trace is refused, if one is. The only
/// error is want of memory.
pub fn links_of_fact<'a>(
    alloc: Global,
    trace: &'a [Entry],
    at: At,
    rule: Rule,
    fact: &Option<Fact<'a>>,
) -> Result<Option<Links<'a>>, AllocError>
    requires { IsReportedOf trace.now at rule fact.now }
    ensures { IfOk result (AreLinksOf trace.now at fact.now) }
{
    match fact {
        Some(Fact::Hazard(hazard)) => {
            let links = links_of_fault(alloc, trace, at, rule, hazard)?;
            Ok(Some(links))
        }
        _ => Ok(None),
    }
}

impl<'a> Nodes<'a> {
    /// Of the points of a trace in reference order, up to and with the one at this place; none
    /// where no point is. The only error is want of memory.
    pub fn until(
        alloc: Global,
        entries: &'a [Entry],
        at: At,
    ) -> Result<Option<Nodes<'a>>, AllocError>
        ensures { IfOk result (λ found. MatchOption found (IsNowhere (order entries.now) at) (IsUntil (order entries.now) at)) }
    {
        match points_until(alloc, entries, at)? {
            Some(points) => {
                let nodes = Nodes::of(alloc, points)?;
                Ok(Some(nodes))
            }
            None => Ok(None),
        }
    }
}
