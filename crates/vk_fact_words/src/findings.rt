use crate::measure_words::measure_words;
use crate::overlap_words::overlap_words;
use crate::pass_words::pass_words;
use crate::quoting::push_quoted;
use crate::state_words::state_words;
use std::alloc::{AllocError, Global};
use vk_findings::Finding;

/// The line on what the rule finds at the point that breaks it, where that is reported.
pub fn finding_line(alloc: Global, finding: &Option<Finding<'_>>) -> Result<String, AllocError> {
    let mut line = String::new(alloc);
    if let Some(finding) = finding {
        line.push_str("  ")?;
        let words = finding_words(alloc, *finding)?;
        line.push_str(words.as_str())?;
        line.push_str("\n")?;
    }
    Ok(line)
}

/// The member with the same: `measure` where the rule compares numbers, masks or kinds, else `state`.
pub fn finding_member(alloc: Global, finding: &Option<Finding<'_>>) -> Result<String, AllocError> {
    let mut member = String::new(alloc);
    if let Some(finding) = finding {
        member.push_str(match finding {
            Finding::Measure(_) => ",\"measure\":",
            Finding::State(_) | Finding::Pass(_) | Finding::Overlap(_) => ",\"state\":",
        })?;
        let words = finding_words(alloc, *finding)?;
        push_quoted(alloc, &mut member, words)?;
    }
    Ok(member)
}

fn finding_words(alloc: Global, finding: Finding<'_>) -> Result<String, AllocError> {
    match finding {
        Finding::Measure(measure) => measure_words(alloc, measure),
        Finding::State(state) => state_words(alloc, state),
        Finding::Pass(fact) => pass_words(alloc, fact),
        Finding::Overlap(overlap) => overlap_words(alloc, overlap),
    }
}
