ghost use Rattle.std.specs.Prelude.{◌≡◌, ◌∷◌, [], IfOk, IfSome, IfNone, Some, false};
ghost use Rattle.std.specs.List.{list_any};
ghost use Rattle.vk_model.specs.Trace.Point as spec;
ghost use Rattle.vk_model.specs.declared.rule.Rule.TheVariants as rule;
ghost use Rattle.vk_model.specs.Rules.Ids.{asked_by, is_dead, judged_in};
ghost use Rattle.vk_model.specs.Rules.Table.{first_fault};
ghost use Rattle.vk_model.specs.Trace.PointViews.{action_of, point_of};
ghost use Rattle.vk_queues.specs.PointViews.{past_of};
ghost use Rattle.vk_hazards.specs.Facts.{IsReported, IsReportedOf};
ghost use Rattle.vk_hazards.specs.Hazards.{rule_of};

use crate::before::{Split, split_of};
use crate::counters::{CounterFact, endless_wait, low_signal};
use crate::hazards::{Hazard, HazardFact};
use crate::lives::{DeadId, Life, dead_id, made_id};
use crate::past::Past;
use crate::strays::{StrayId, stray_id};
use std::alloc::{AllocError, Global};
use vk_model::{At, Entry, Point, Rule};

/// What is so of a point that breaks a rule.
#[derive(Clone, Copy)]
pub enum Fact<'a> {
    /// An earlier access that the point is in hazard with.
    Hazard(HazardFact<'a>),
    /// What became of the id that the point makes.
    Made(Life<'a>),
    /// What became of an id that the point names.
    Dead(DeadId<'a>),
    /// A resource that an end of a pass lists and that isn't in its pool.
    Stray(StrayId<'a>),
    /// How far the semaphore is that the point signals.
    Signaled(CounterFact<'a>),
    /// How far a semaphore is that the point waits for.
    Waited(CounterFact<'a>),
}

impl<'a> Past<'a> {
    /// What is so of the last point, where it breaks this rule. Rules of which no fact is reported
    /// have none. The only error is want of memory.
    pub fn fact_of(&self, rule: Rule) -> Result<Option<Fact<'a>>, AllocError>
        ensures { IfOk result (λ found. (past : spec.Past) (p : spec.Point) → self.now ≡ p ∷ past → IsReported rule past p found) }
    {
        match rule {
            Rule::NewId => Ok(self.made()),
            Rule::LiveId => self.dead(),
            Rule::SignalValue => Ok(self.signaled()),
            Rule::WaitNever => Ok(self.waited()),
            Rule::HazardWar => self.in_hazard(Hazard::War),
            Rule::HazardRaw => self.in_hazard(Hazard::Raw),
            Rule::HazardWaw => self.in_hazard(Hazard::Waw),
            _ => Ok(None),
        }
    }

    /// The last point, and those before it.
    fn split(&self) -> Option<Split<'_, 'a>>
        ensures some { IfSome result (λ s. self.now ≡ point_of s.point ∷ past_of s.older.now) }
        ensures none { IfNone result (self.now ≡ []) }
    {
        split_of(self.points.as_slice())
    }

    fn in_hazard(&self, hazard: Hazard) -> Result<Option<Fact<'a>>, AllocError>
        ensures { IfOk result (λ found. (past : spec.Past) (p : spec.Point) → self.now ≡ p ∷ past → IsReported (rule_of hazard) past p found) }
    {
        match self.hazard_fact(hazard)? {
            Some(fact) => Ok(Some(Fact::Hazard(fact))),
            None => Ok(None),
        }
    }

    fn made(&self) -> Option<Fact<'a>>
        ensures { (past : spec.Past) (p : spec.Point) → self.now ≡ p ∷ past → IsReported rule.NewId past p result }
    {
        let split = self.split()?;
        let life = made_id(split.older, &split.point)?;
        Some(Fact::Made(life))
    }

    fn dead(&self) -> Result<Option<Fact<'a>>, AllocError>
        ensures { IfOk result (λ found. (past : spec.Past) (p : spec.Point) → self.now ≡ p ∷ past → IsReported rule.LiveId past p found) }
    {
        let Some(split) = self.split() else {
            return Ok(None);
        };
        match dead_id(self.alloc, split.older, &split.point)? {
            Some(dead) => Ok(Some(Fact::Dead(dead))),
            None => Ok(stray(split.older, &split.point)),
        }
    }

    fn signaled(&self) -> Option<Fact<'a>>
        ensures { (past : spec.Past) (p : spec.Point) → self.now ≡ p ∷ past → IsReported rule.SignalValue past p result }
    {
        let split = self.split()?;
        let fact = low_signal(split.older, &split.point)?;
        Some(Fact::Signaled(fact))
    }

    fn waited(&self) -> Option<Fact<'a>>
        ensures { (past : spec.Past) (p : spec.Point) → self.now ≡ p ∷ past → IsReported rule.WaitNever past p result }
    {
        let split = self.split()?;
        let fact = endless_wait(split.older, &split.point)?;
        Some(Fact::Waited(fact))
    }
}

/// A resource of another pool that the end of a pass lists.
fn stray<'a>(older: &[Point<'a>], point: &Point<'a>) -> Option<Fact<'a>>
    ensures { list_any (is_dead (judged_in (past_of older.now) (point_of point.now))) (asked_by (action_of point.now.action)) ≡ false → IsReported rule.LiveId (past_of older.now) (point_of point.now) result }
{
    let stray = stray_id(older, point)?;
    Some(Fact::Stray(stray))
}

/// What is so of the point that a trace is refused at, and of the rule that it breaks there. The
/// only error is want of memory.
pub fn fact_of_fault<'a>(
    alloc: Global,
    entries: &'a [Entry],
    at: At,
    rule: Rule,
) -> Result<Option<Fact<'a>>, AllocError>
    requires { first_fault entries.now ≡ Some (at, rule) }
    ensures { IfOk result (IsReportedOf entries.now at rule) }
{
    let Some(past) = Past::until(alloc, entries, at)? else {
        return Ok(None);
    };
    let found = past.fact_of(rule)?;
    Ok(found)
}
