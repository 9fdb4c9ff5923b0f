ghost use Rattle.std.specs.Prelude.{◌≡◌, IfOk, IfSome, Some, length};
ghost use Rattle.vk_model.specs.Trace.Order.{order};
ghost use Rattle.vk_model.specs.Rules.Table.{first_fault};
ghost use Rattle.vk_queues.specs.PointViews.{past_of};
ghost use Rattle.vk_repairs.specs.Starts as spec;
ghost use Rattle.vk_repairs.specs.Starts.{sound_start};
ghost use Rattle.vk_repairs.specs.Repairs.{IsRepair};
ghost use Rattle.vk_repairs.specs.Inner.Offers.{IsMeasured, Helps};
ghost use Rattle.std.specs.Prelude.{List};
ghost use Rattle.vk_model.specs.declared.entry.Entry.{Entry as AnyEntry};
ghost use Rattle.vk_model.specs.declared.rule.At.{At as AnyAt};

use crate::counting::all_points;
use crate::found::Repair;
use crate::judging::{is_among, judge, with_start};
use crate::parts::parts_in;
use crate::seeking::{edits_of, followed, followed_twice, sought};
use std::alloc::{AllocError, Global};
use vk_candidates::{
    Candidates, Edit, Kind, PLAIN, STAND_IN, STEPS, WEAKER, edited, may_go, moved, with_less,
    without_edit,
};
use vk_model::{At, Entry, Point, Rule};
use vk_queues::reference_order;

/// At most so many lists of edits of a kind are judged, and as many each that are two and three
/// together.
const MOST: usize = 60;

/// In a trace of more points no lists are tried together.
const MOST_FOR_MORE: usize = 1_024;

/// Where the commands of a trace have so many parts to be compared, as rows of copies, half as many
/// lists are judged, a third where they have twice as many, and so on. Where they have more, none are
/// tried together, and no access is taken out of a barrier.
const FEW_PARTS: u64 = 16_384;

/// What is known of the refused trace.
#[derive(Clone, Copy)]
pub struct Refused<'a> {
    /// The trace.
    pub trace: &'a [Entry],
    /// Its first fault.
    pub at: At,
    /// How many points come before it.
    pub sound: usize,
    /// How many points the trace has, once all batches are started.
    pub size: usize,
    /// How many parts its commands have that judging compares.
    pub parts: u64,
}

/// A repair of a refused trace, whose first fault is given: the first found that makes it accepted,
/// or else the first found after which its first fault comes later; what asks for less, or for other
/// bytes, only where nothing else is found. No edit of it can go. None is said only of the edits that
/// were tried. The only error is want of memory.
pub fn repair(
    alloc: Global,
    trace: &[Entry],
    at: At,
    rule: Rule,
) -> Result<Option<Repair>, AllocError>
    requires { first_fault trace.now ≡ Some (at, rule) }
    ensures { IfOk result (λ found. IfSome found (IsRepair trace.now at)) }
{
    let points = reference_order(alloc, trace)?;
    let Some(start) = with_start(points, Some((at, rule))) else {
        return Ok(None);
    };
    let Some(size) = all_points(trace) else {
        return Ok(None);
    };
    let refused = Refused {
        trace,
        at,
        sound: start.sound.len(),
        size,
        parts: parts_in(trace),
    };
    answered(alloc, &refused, start.sound.as_slice(), rule)
}

/// The repair that is answered: the one that is chosen, without what can go.
fn answered(
    alloc: Global,
    refused: &Refused<'_>,
    earlier: &[Point<'_>],
    rule: Rule,
) -> Result<Option<Repair>, AllocError>
    requires measured { IsMeasured refused.now }
    requires fault { first_fault refused.now.trace.now ≡ Some (refused.now.at, rule) }
    ensures { IfOk result (λ found. IfSome found (IsRepair refused.now.trace.now refused.now.at)) }
{
    match chosen(alloc, refused, earlier, rule)? {
        Some(found) => Ok(Some(least(alloc, refused, found)?)),
        None => Ok(None),
    }
}

/// The repair that is chosen.
fn chosen(
    alloc: Global,
    refused: &Refused<'_>,
    earlier: &[Point<'_>],
    rule: Rule,
) -> Result<Option<Repair>, AllocError>
    requires measured { IsMeasured refused.now }
    requires fault { first_fault refused.now.trace.now ≡ Some (refused.now.at, rule) }
    ensures { IfOk result (λ found. IfSome found (IsRepair refused.now.trace.now refused.now.at)) }
{
    let Candidates {
        lists,
        weaker,
        stand_ins,
    } = sought(alloc, refused.trace, earlier, refused.at, rule)?;
    let found = first_or_more(alloc, refused, earlier, rule, lists, PLAIN)?;
    if found.is_some() {
        return Ok(found);
    }
    let found = first_or_more(alloc, refused, earlier, rule, weaker, WEAKER)?;
    if found.is_some() {
        return Ok(found);
    }
    first_or_more(alloc, refused, earlier, rule, stand_ins, STAND_IN)
}

/// The first of some lists of edits, or else of those that serve only together with one list after
/// them, or with two.
fn first_or_more(
    alloc: Global,
    refused: &Refused<'_>,
    earlier: &[Point<'_>],
    rule: Rule,
    lists: Vec<Vec<Edit>>,
    kind: Kind,
) -> Result<Option<Repair>, AllocError>
    requires measured { IsMeasured refused.now }
    requires fault { first_fault refused.now.trace.now ≡ Some (refused.now.at, rule) }
    ensures { IfOk result (λ found. IfSome found (IsRepair refused.now.trace.now refused.now.at)) }
{
    let found = first_of(alloc, refused, lists, kind)?;
    if found.is_some() || refused.size > MOST_FOR_MORE || refused.parts > FEW_PARTS {
        return Ok(found);
    }
    let starts = sought(alloc, refused.trace, earlier, refused.at, rule)?;
    let seconds = followed(alloc, refused.trace, refused.at, rule, &starts, kind)?;
    let pairs = edits_of(alloc, seconds.as_slice())?;
    let found = first_of(alloc, refused, pairs, kind)?;
    if found.is_some() {
        return Ok(found);
    }
    let thirds = followed_twice(
        alloc,
        refused.trace,
        refused.at,
        rule,
        &starts,
        seconds.as_slice(),
        kind,
    )?;
    let triples = edits_of(alloc, thirds.as_slice())?;
    first_of(alloc, refused, triples, kind)
}

/// A repair without the edits and the accesses of barriers that can go.
fn least(alloc: Global, refused: &Refused<'_>, found: Repair) -> Result<Repair, AllocError>
    requires measured { IsMeasured refused.now }
    requires repair { IsRepair refused.now.trace.now refused.now.at found }
    ensures { IfOk result (IsRepair refused.now.trace.now refused.now.at) }
{
    let mut best = found;
    let count = best.edits.len();
    for turn in 0..count {
        best = shorter(alloc, refused, best, count - 1 - turn)?;
    }
    if refused.parts > FEW_PARTS {
        return Ok(best);
    }
    for number in 0..count {
        best = less_at(alloc, refused, best, number)?;
    }
    Ok(best)
}

/// A repair without the accesses that can go in one of its barriers.
fn less_at(
    alloc: Global,
    refused: &Refused<'_>,
    found: Repair,
    number: usize,
) -> Result<Repair, AllocError>
    requires measured { IsMeasured refused.now }
    requires repair { IsRepair refused.now.trace.now refused.now.at found }
    ensures { IfOk result (IsRepair refused.now.trace.now refused.now.at) }
{
    let mut best = found;
    for step in 0..STEPS {
        best = less(alloc, refused, best, number, step)?;
    }
    Ok(best)
}

/// A repair without one of its edits, if it is as good.
fn shorter(
    alloc: Global,
    refused: &Refused<'_>,
    best: Repair,
    number: usize,
) -> Result<Repair, AllocError>
    requires measured { IsMeasured refused.now }
    requires repair { IsRepair refused.now.trace.now refused.now.at best }
    ensures { IfOk result (IsRepair refused.now.trace.now refused.now.at) }
{
    if best.edits.len() < 2 || !may_go(best.edits.as_slice(), number) {
        return Ok(best);
    }
    let fewer = without_edit(alloc, best.edits.as_slice(), number)?;
    let offer = offered(alloc, refused, fewer, kind_of(&best))?;
    Ok(as_good(best, offer))
}

/// A repair with one access less in one of its barriers, if it is as good.
fn less(
    alloc: Global,
    refused: &Refused<'_>,
    best: Repair,
    number: usize,
    step: usize,
) -> Result<Repair, AllocError>
    requires measured { IsMeasured refused.now }
    requires repair { IsRepair refused.now.trace.now refused.now.at best }
    ensures { IfOk result (IsRepair refused.now.trace.now refused.now.at) }
{
    let Some(edits) = with_less(alloc, best.edits.as_slice(), number, step)? else {
        return Ok(best);
    };
    let offer = offered(alloc, refused, edits, kind_of(&best))?;
    Ok(as_good(best, offer))
}

fn kind_of(found: &Repair) -> Kind {
    Kind {
        weaker: found.weaker,
        stands_in: found.stands_in,
    }
}

/// The second, if it leads as far.
fn as_good(best: Repair, offer: Option<Repair>) -> Repair
    ensures { (trace : List AnyEntry) (at : AnyAt) → IsRepair trace at best → IfSome offer (IsRepair trace at) → IsRepair trace at result }
{
    match offer {
        Some(other) => {
            if leads_as_far(best.next, other.next) {
                other
            } else {
                best
            }
        }
        None => best,
    }
}

/// Whether the second is no fault, or one of the same rule as the first.
fn leads_as_far(first: Option<(At, Rule)>, second: Option<(At, Rule)>) -> bool {
    match (first, second) {
        (_, None) => true,
        (Some((_, rule)), Some((_, other))) => rule == other,
        (None, Some(_)) => false,
    }
}

/// The first list of edits after which a trace is accepted, or else the first that moves its first
/// fault to a later point.
fn first_of(
    alloc: Global,
    refused: &Refused<'_>,
    lists: Vec<Vec<Edit>>,
    kind: Kind,
) -> Result<Option<Repair>, AllocError>
    requires { IsMeasured refused.now }
    ensures { IfOk result (λ found. IfSome found (IsRepair refused.now.trace.now refused.now.at)) }
{
    let mut best = None;
    for (count, edits) in lists.into_iter().enumerate() {
        if count < most_lists(refused.parts) {
            let offer = offered(alloc, refused, edits, kind)?;
            if is_accepted(&offer) {
                return Ok(offer);
            }
            best = better(best, offer);
        }
    }
    Ok(best)
}

/// How many lists of edits of a kind are judged: fewer where each takes long.
fn most_lists(parts: u64) -> usize {
    MOST / (1 + parts / FEW_PARTS) as usize
}

fn is_accepted(offer: &Option<Repair>) -> bool {
    match offer {
        Some(repair) => repair.next.is_none(),
        None => false,
    }
}

/// The first, if there is one.
fn better(best: Option<Repair>, offer: Option<Repair>) -> Option<Repair>
    ensures { (trace : List AnyEntry) (at : AnyAt) → IfSome best (IsRepair trace at) → IfSome offer (IsRepair trace at) → IfSome result (IsRepair trace at) }
{
    match best {
        Some(found) => Some(found),
        None => offer,
    }
}

/// A list of edits as a repair, if it is one.
fn offered(
    alloc: Global,
    refused: &Refused<'_>,
    edits: Vec<Edit>,
    kind: Kind,
) -> Result<Option<Repair>, AllocError>
    requires { IsMeasured refused.now }
    ensures { IfOk result (λ found. IfSome found (IsRepair refused.now.trace.now refused.now.at)) }
{
    let changed = edited(alloc, refused.trace, edits.as_slice())?;
    let Some(place) = moved(edits.as_slice(), refused.at) else {
        return Ok(None);
    };
    let found = outcome_of(alloc, refused, changed.as_slice(), place)?;
    let Some(outcome) = found else {
        return Ok(None);
    };
    Ok(Some(Repair {
        edits,
        changed,
        next: outcome.next,
        weaker: kind.weaker,
        stands_in: kind.stands_in,
    }))
}

/// What is so after edits.
#[derive(Clone, Copy)]
struct Outcome {
    next: Option<(At, Rule)>,
}

/// The first fault of a changed trace, if it comes later there and the refused point, which has moved
/// to this place, comes before it.
fn outcome_of(
    alloc: Global,
    refused: &Refused<'_>,
    changed: &[Entry],
    place: At,
) -> Result<Option<Outcome>, AllocError>
    requires { IsMeasured refused.now }
    ensures { IfOk result (λ found. IfSome found (λ o. Helps refused.now.trace.now changed.now place o.next)) }
{
    let Some(size) = all_points(changed) else {
        return Ok(None);
    };
    let found = judge(alloc, changed)?;
    let Some(judged) = found else {
        return Ok(None);
    };
    let before = refused.sound as u128 + size as u128;
    let after = judged.sound.len() as u128 + refused.size as u128;
    if before < after && is_among(judged.sound.as_slice(), place) {
        Ok(Some(Outcome { next: judged.next }))
    } else {
        Ok(None)
    }
}
