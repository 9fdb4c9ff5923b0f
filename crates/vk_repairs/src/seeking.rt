ghost use Rattle.std.specs.Prelude.{◌≡◌, Some};
ghost use Rattle.vk_model.specs.Rules.Table.{first_fault};

use crate::judging::{at_of, judge};
use std::alloc::{AllocError, Global};
use vk_candidates::{
    Candidates, Case, Edit, Kind, PLAIN, WEAKER, candidates, copy_of_edits, edited, has_removal,
    moved,
};
use vk_hazards::{Fact, fact_of_fault};
use vk_model::{At, Entry, Point, Rule};
use vk_queues::reference_order;

/// So many lists of edits are gone on from.
const BREADTH: usize = 6;
/// In so many ways each.
const WAYS: usize = 10;

/// Edits that are tried one after another.
#[derive(Drop)]
pub struct Trial {
    /// All of them.
    edits: Vec<Edit>,
    /// Where the fault is then that the last of them are for; none where it is nowhere.
    place: Option<At>,
    /// The rule of that fault.
    rule: Rule,
}

/// Lists of edits to try on a refused trace, of which the first fault and the points before it are given.
pub fn sought(
    alloc: Global,
    trace: &[Entry],
    earlier: &[Point<'_>],
    at: At,
    rule: Rule,
) -> Result<Candidates, AllocError>
    requires { first_fault trace.now ≡ Some (at, rule) }
{
    let points = reference_order(alloc, trace)?;
    let accessed = accessed_earlier(alloc, trace, earlier, at, rule)?;
    match points.get(earlier.len()) {
        Some(refused) => candidates(&Case {
            alloc,
            trace,
            earlier,
            refused: *refused,
            rule,
            accessed,
        }),
        None => Ok(Candidates::new(alloc)),
    }
}

/// Of a hazard the place of the earlier access among the points before the refused one.
fn accessed_earlier(
    alloc: Global,
    trace: &[Entry],
    earlier: &[Point<'_>],
    at: At,
    rule: Rule,
) -> Result<Option<usize>, AllocError>
    requires { first_fault trace.now ≡ Some (at, rule) }
{
    if !matches!(rule, Rule::HazardWar | Rule::HazardRaw | Rule::HazardWaw) {
        return Ok(None);
    }
    let Some(Fact::Hazard(fact)) = fact_of_fault(alloc, trace, at, rule)? else {
        return Ok(None);
    };
    let accessed = at_of(&fact.earlier.row.point);
    Ok(earlier.iter().position(|point| at_of(point) == accessed))
}

/// The edits of trials.
pub fn edits_of(alloc: Global, trials: &[Trial]) -> Result<Vec<Vec<Edit>>, AllocError> {
    let mut all = Vec::new(alloc);
    for trial in trials {
        all.push(copy_of_edits(alloc, trial.edits.as_slice())?)?;
    }
    Ok(all)
}

/// Lists of edits after which the first fault is another than the given one, each with the lists that are
/// tried then; the two together are of a kind.
pub fn followed(
    alloc: Global,
    trace: &[Entry],
    at: At,
    rule: Rule,
    starts: &Candidates,
    kind: Kind,
) -> Result<Vec<Trial>, AllocError> {
    let plain = trials_of(alloc, starts.lists.as_slice(), at, rule)?;
    let mut all = gone_on_all(alloc, trace, plain.as_slice(), kind)?;
    if kind.weaker {
        let weaker = trials_of(alloc, starts.weaker.as_slice(), at, rule)?;
        let then = if kind.stands_in { kind } else { PLAIN };
        for trial in gone_on_all(alloc, trace, weaker.as_slice(), then)? {
            all.push(trial)?;
        }
    }
    if kind.stands_in {
        let stand_ins = trials_of(alloc, starts.stand_ins.as_slice(), at, rule)?;
        for trial in gone_on_all(alloc, trace, stand_ins.as_slice(), PLAIN)? {
            all.push(trial)?;
        }
    }
    Ok(all)
}

/// Trials of two lists of edits, each with a list that is tried after it; the three together are of a
/// kind, of which the first two are given.
pub fn followed_twice(
    alloc: Global,
    trace: &[Entry],
    at: At,
    rule: Rule,
    starts: &Candidates,
    seconds: &[Trial],
    kind: Kind,
) -> Result<Vec<Trial>, AllocError> {
    let mut all = gone_on_all(alloc, trace, seconds, PLAIN)?;
    if kind.weaker {
        let plain = followed(alloc, trace, at, rule, starts, PLAIN)?;
        for trial in gone_on_all(alloc, trace, plain.as_slice(), kind)? {
            all.push(trial)?;
        }
    }
    if kind.stands_in {
        let weaker = followed(alloc, trace, at, rule, starts, WEAKER)?;
        for trial in gone_on_all(alloc, trace, weaker.as_slice(), kind)? {
            all.push(trial)?;
        }
    }
    Ok(all)
}

/// Lists of edits for a fault, as trials.
fn trials_of(
    alloc: Global,
    lists: &[Vec<Edit>],
    at: At,
    rule: Rule,
) -> Result<Vec<Trial>, AllocError> {
    let mut all = Vec::new(alloc);
    for list in lists {
        all.push(Trial {
            edits: copy_of_edits(alloc, list.as_slice())?,
            place: moved(list.as_slice(), at),
            rule,
        })?;
    }
    Ok(all)
}

/// Trials after which the first fault is another than the one that they are for, each with the lists of a
/// kind that are tried then.
fn gone_on_all(
    alloc: Global,
    trace: &[Entry],
    trials: &[Trial],
    kind: Kind,
) -> Result<Vec<Trial>, AllocError> {
    let mut all = Vec::new(alloc);
    let mut count = 0;
    for trial in trials {
        if count < BREADTH {
            let is_some = gone_on(alloc, trace, trial, kind, &mut all)?;
            if is_some {
                count += 1;
            }
        }
    }
    Ok(all)
}

/// A trial with each list of edits that is tried after it and takes nothing out, if the first fault is
/// another then; whether there are some.
fn gone_on(
    alloc: Global,
    trace: &[Entry],
    trial: &Trial,
    kind: Kind,
    all: &mut Vec<Trial>,
) -> Result<bool, AllocError> {
    let first = trial.edits.as_slice();
    let changed = edited(alloc, trace, first)?;
    let Some(judged) = judge(alloc, changed.as_slice())? else {
        return Ok(false);
    };
    let Some((at, rule)) = judged.next else {
        return Ok(false);
    };
    if trial.place.is_none() || trial.place == Some(at) && trial.rule == rule {
        return Ok(false);
    }
    let found = sought(alloc, changed.as_slice(), judged.sound.as_slice(), at, rule)?;
    let seconds = found.of_kind(kind);
    let is_some = !seconds.is_empty();
    for (count, second) in seconds.into_iter().enumerate() {
        if count < WAYS && !has_removal(second.as_slice()) {
            let place = moved(second.as_slice(), at);
            let edits = joined(alloc, second, first)?;
            all.push(Trial { edits, place, rule })?;
        }
    }
    Ok(is_some)
}

/// Edits of what other edits make.
fn joined(alloc: Global, second: Vec<Edit>, first: &[Edit]) -> Result<Vec<Edit>, AllocError> {
    let mut all = second;
    for edit in copy_of_edits(alloc, first)? {
        all.push(edit)?;
    }
    Ok(all)
}
