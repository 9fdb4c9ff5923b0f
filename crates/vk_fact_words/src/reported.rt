use crate::known::{push_cause_values, push_fact_values, push_link_values};
use crate::measured::push_measured;
use crate::stated::{push_overlap_values, push_pass_values, push_state_values};
use crate::values::Values;
use std::alloc::{AllocError, Global};
use vk_findings::{Finding, Report};

/// The member with what is reported of a refused point as numbers, masks, words and points, with their
/// places in the input; nothing where nothing is.
pub fn values_member(
    alloc: Global,
    input: &[u8],
    report: &Report<'_>,
) -> Result<String, AllocError> {
    let mut values = Values::new(alloc, input)?;
    if let Some(finding) = &report.finding {
        push_finding(&mut values, *finding)?;
    }
    if let Some(fact) = &report.fact {
        push_fact_values(&mut values, fact)?;
    }
    if let Some(links) = &report.links {
        push_link_values(&mut values, links)?;
    }
    if let Some(cause) = &report.cause {
        push_cause_values(&mut values, cause)?;
    }
    values.member(alloc)
}

fn push_finding(out: &mut Values<'_>, finding: Finding<'_>) -> Result<(), AllocError> {
    match finding {
        Finding::Measure(measure) => push_measured(out, measure),
        Finding::State(state) => push_state_values(out, state),
        Finding::Pass(fact) => push_pass_values(out, fact),
        Finding::Overlap(overlap) => push_overlap_values(out, overlap),
    }
}
