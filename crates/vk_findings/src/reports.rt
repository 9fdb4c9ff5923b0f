ghost use Rattle.std.specs.Prelude.{◌≡◌, IfOk, IfSome, Some};
ghost use Rattle.std.specs.Option.{option_map};
ghost use Rattle.vk_model.specs.Trace.Order.{order};
ghost use Rattle.vk_model.specs.Rules.Table.{first_fault};
ghost use Rattle.vk_queues.specs.PointViews.{past_of};
ghost use Rattle.vk_hazards.specs.Facts.{IsReportedOf};
ghost use Rattle.vk_hazards.specs.Faults.{AreLinksOf};
ghost use Rattle.vk_findings.specs.Reports.{IsReport, fault_in};

use crate::findings::{Finding, finding_of};
use crate::states::State;
use std::alloc::{AllocError, Global};
use vk_hazards::{
    Cause, Fact, Halves, Links, at_of, cause_of, fact_of_fault, late_release, links_of_fact,
};
use vk_model::{At, Entry, Point, Rule};
use vk_rules::OwnerFault;
use vk_validate::refusal_of;

/// What is known of the point at which a trace is refused.
#[derive(Drop)]
pub struct Report<'a> {
    /// How the point is reported.
    pub at: At,
    /// The first rule of the table that it breaks.
    pub rule: Rule,
    /// What the rule compares or finds there; of hazards, ids and semaphores the fact has it.
    pub finding: Option<Finding<'a>>,
    /// What is so by the points before it: of a hazard the earlier access, of an id what became of it, of
    /// a semaphore its counter.
    pub fact: Option<Fact<'a>>,
    /// Of a hazard which link is missing, and the nodes that the others are by.
    pub links: Option<Links<'a>>,
    /// Why a byte is undefined, what uses an object that ends, what would signal an awaited value, which
    /// barrier between the accesses of a hazard doesn't serve, or which link between a release and its acquire
    /// is missing.
    pub cause: Option<Cause<'a>>,
}

/// What is known of the point at which a trace is refused; none where the trace breaks no rule. The points
/// are those of the trace, in reference order. The only error is want of memory.
pub fn report_of<'a>(
    alloc: Global,
    entries: &'a [Entry],
    points: &'a [Point<'a>],
) -> Result<Option<Report<'a>>, AllocError>
    requires { past_of points.now ≡ order entries.now }
    ensures exact { IfOk result (λ found. option_map fault_in found ≡ first_fault entries.now) }
    ensures so { IfOk result (λ found. IfSome found (IsReport entries.now)) }
{
    let Some(refusal) = refusal_of(alloc, points)? else {
        return Ok(None);
    };
    let at = refusal.at;
    let rule = refusal.rule;
    let finding = finding_of(alloc, &refusal.history, &refusal.point, rule)?;
    let Known { fact, links, cause } = known_of(alloc, entries, at, rule)?;
    let cause = told_cause(alloc, entries, at, &finding, cause)?;
    Ok(Some(Report {
        at,
        rule,
        finding,
        fact,
        links,
        cause,
    }))
}

/// The two halves of a transfer of ownership of which the first isn't known to come before the second.
fn late_half(finding: &Option<Finding<'_>>, at: At) -> Option<Halves> {
    match finding {
        Some(Finding::State(State::OwnerPair(owner))) if owner.fault == OwnerFault::Unordered => {
            let since = owner.owned.since?;
            Some(Halves {
                released: at_of(&since),
                resource: owner.resource,
                acquired: at,
                element: owner.element,
            })
        }
        _ => None,
    }
}

/// Which link between a release and its acquire is missing, where one is; else the cause that is known.
fn told_cause<'a>(
    alloc: Global,
    entries: &'a [Entry],
    at: At,
    finding: &Option<Finding<'a>>,
    cause: Option<Cause<'a>>,
) -> Result<Option<Cause<'a>>, AllocError> {
    let Some(halves) = late_half(finding, at) else {
        return Ok(cause);
    };
    match late_release(alloc, entries, halves)? {
        Some(late) => Ok(Some(Cause::Late(late))),
        None => Ok(None),
    }
}

/// What is known of a refused point by the points before it.
#[derive(Drop)]
struct Known<'a> {
    fact: Option<Fact<'a>>,
    links: Option<Links<'a>>,
    cause: Option<Cause<'a>>,
}

/// What is known of the point that breaks a rule first.
fn known_of<'a>(
    alloc: Global,
    entries: &'a [Entry],
    at: At,
    rule: Rule,
) -> Result<Known<'a>, AllocError>
    requires { first_fault entries.now ≡ Some (at, rule) }
    ensures so { IfOk result (λ known. IsReportedOf entries.now at rule known.fact) }
    ensures linked { IfOk result (λ known. AreLinksOf entries.now at known.fact known.links) }
{
    let fact = fact_of_fault(alloc, entries, at, rule)?;
    let links = links_of_fact(alloc, entries, at, rule, &fact)?;
    let cause = cause_of(alloc, entries, at, rule, &fact)?;
    Ok(Known { fact, links, cause })
}
