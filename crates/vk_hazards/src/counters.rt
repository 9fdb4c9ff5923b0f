ghost use Rattle.std.specs.Prelude.{◌≡◌, IfSome, IfNone, None, option_and_then, true, false, max};
ghost use Rattle.std.specs.List.{fold};
ghost use Rattle.vk_model.specs.Trace.Order as spec;
ghost use Rattle.vk_model.specs.Trace.Order.{value_for};
ghost use Rattle.vk_model.specs.Trace.PointViews.{action_of, point_of};
ghost use Rattle.vk_queues.specs.PointViews.{past_of};
ghost use Rattle.vk_hazards.specs.Counters.{IsCounted, IsLow, IsEndless, IsUnmet, is_unmet};

use crate::before::{Doing, latest, made, signal_of};
use vk_model::{Action, Entry, Point, SemaphoreValue};

/// A value that is signaled or waited for, and how far its semaphore is.
#[derive(Clone, Copy)]
pub struct CounterFact<'a> {
    /// The semaphore, and the value.
    pub asked: SemaphoreValue,
    /// The semaphore's counter before the point.
    pub counter: u64,
    /// The last point that signaled it.
    pub last: Option<Point<'a>>,
}

/// SIGNAL_VALUE: how far the semaphore is that a point signals, where the value isn't above it.
pub fn low_signal<'a>(older: &[Point<'a>], point: &Point<'a>) -> Option<CounterFact<'a>>
    ensures { IsLow (past_of older.now) (point_of point.now) result }
{
    let asked = signal_of(point)?;
    let fact = counter_fact(older, asked)?;
    if asked.value <= fact.counter {
        Some(fact)
    } else {
        None
    }
}

/// WAIT_NEVER: how far the first semaphore is that the host waits for and that isn't so far.
pub fn endless_wait<'a>(older: &[Point<'a>], point: &Point<'a>) -> Option<CounterFact<'a>>
    ensures { IsEndless (past_of older.now) (point_of point.now) result }
{
    match point.action {
        Action::Host(Entry::Wait { waits }) => unmet_among(older, waits.as_slice()),
        _ => None,
    }
}

/// The same of one of some values that are waited for.
fn unmet_among<'a>(older: &[Point<'a>], waits: &[SemaphoreValue]) -> Option<CounterFact<'a>>
    ensures { IsUnmet (past_of older.now) waits.now result }
{
    for wait in waits {
        if let Some(fact) = unmet(older, *wait) {
            return Some(fact);
        }
    }
    None
}

/// How far a semaphore is, where it hasn't reached the value that is waited for.
fn unmet<'a>(older: &[Point<'a>], asked: SemaphoreValue) -> Option<CounterFact<'a>>
    ensures counted { IfSome result (λ f. IsCounted (past_of older.now) f) }
    ensures asked { IfSome result (λ f. f.asked ≡ asked) }
    ensures unmet { IfSome result (λ f. is_unmet (past_of older.now) asked ≡ true) }
    ensures met { IfNone result (is_unmet (past_of older.now) asked ≡ false) }
{
    let fact = counter_fact(older, asked)?;
    if fact.counter < asked.value {
        Some(fact)
    } else {
        None
    }
}

/// How far a semaphore is; none of what is no semaphore.
fn counter_fact<'a>(points: &[Point<'a>], asked: SemaphoreValue) -> Option<CounterFact<'a>>
    ensures counted { IfSome result (λ f. IsCounted (past_of points.now) f) }
    ensures asked { IfSome result (λ f. f.asked ≡ asked) }
    ensures none { IfNone result (spec.counter (past_of points.now) asked.semaphore ≡ None) }
{
    let counter = counter(points, asked.semaphore)?;
    Some(CounterFact {
        asked,
        counter,
        last: latest(points, Doing::Signals, asked.semaphore),
    })
}

/// The counter of a semaphore after some points; none of what is no semaphore.
fn counter(points: &[Point<'_>], semaphore: u32) -> Option<u64>
    ensures { result ≡ spec.counter (past_of points.now) semaphore }
{
    match made(points, semaphore) {
        Some(Entry::Semaphore { initial, .. }) => Some(raised(points, semaphore, *initial)),
        _ => None,
    }
}

/// A value, raised to the greatest of those that some points signal to a semaphore.
fn raised(points: &[Point<'_>], semaphore: u32, least: u64) -> u64
    ensures { result ≡ fold max least (spec.signaled (past_of points.now) semaphore) }
{
    let mut greatest = least;
    let mut count = points.len();
    while count > 0 {
        count -= 1;
        if let Some(value) = signaled_to(semaphore, &points[count]) {
            greatest = greatest.max(value);
        }
    }
    greatest
}

/// The value that a point signals to a semaphore.
fn signaled_to(semaphore: u32, point: &Point<'_>) -> Option<u64>
    ensures { result ≡ option_and_then (value_for semaphore) (spec.signal_of (action_of point.now.action)) }
{
    let signal = signal_of(point)?;
    if signal.semaphore == semaphore {
        Some(signal.value)
    } else {
        None
    }
}
