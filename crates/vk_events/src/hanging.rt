ghost use Rattle.std.specs.Prelude.{◌≡◌, ◌<◌, ◌≤◌, ◌+◌, ◌++◌, ◌∷◌, [], ℕ, Bool, OnOk, IfSome, IfNone, IsTrue, IfOk, List};
ghost use Rattle.std.specs.Prelude.{◌||◌, ◌==◌, nat_lt, if◌then◌else◌, length, slice_index, slice_index_or, slice_set, false, true, Contains};
ghost use Rattle.std.specs.List.Sorted.{IsPermutation};
ghost use Rattle.vk_events.specs.Inner.Hooks.{Hung};
ghost use Rattle.vk_events.specs.Inner.Hanging.{pairs_on};

use crate::hooks::Hooks;
use std::alloc::{AllocError, Global};

/// What waits for counts on four queues, by numbers in the order of adding.
///
/// A number hangs on each queue whose count it lacks, under the count that it waits for. When a
/// queue has come to a count, what hangs on it under no more is taken off, once. A number that hangs
/// on no queue any more is met.
#[derive(Drop)]
pub(crate) struct Hanging {
    /// Of each queue, what hangs on it.
    pub(crate) hooks: [Hooks; 4],
    /// Of each number, on how many queues it hangs.
    pub(crate) lacking: Vec<u8>,
    /// What is met and wasn't taken, each under its own number.
    pub(crate) met: Hooks,
}

impl Hanging {
    ghost use Rattle.vk_events.specs.Inner.Hanging.{IsHanging, IsNext, MayCome};

    /// Nothing waits.
    pub(crate) fn new(alloc: Global) -> Hanging
        ensures { (done : ℕ → ℕ) → IsHanging result.hooks result.lacking.items result.met [] done done (λ i. false) }
    {
        Hanging {
            hooks: [
                Hooks::new(alloc),
                Hooks::new(alloc),
                Hooks::new(alloc),
                Hooks::new(alloc),
            ],
            lacking: Vec::new(alloc),
            met: Hooks::new(alloc),
        }
    }

    /// The next number waits for these counts, where the queues have come to those. The only error
    /// is want of memory, or of numbers; what comes after it isn't said then.
    pub(crate) fn add(&mut self, counts: [usize; 4], done: [usize; 4]) -> Result<(), AllocError>
        ensures { OnOk result ((all : List (List ℕ)) (taken : ℕ → Bool)
            → IsHanging self.old.hooks self.old.lacking.items self.old.met all (slice_index done) (slice_index done) taken
            → IsHanging self.new.hooks self.new.lacking.items self.new.met (all ++ counts ∷ []) (slice_index done) (slice_index done) taken) }
    {
        let Ok(number) = u32::try_from(self.lacking.len()) else {
            return Err(AllocError);
        };
        self.met.reserve(number as usize + 1)?;
        let mut lacking = 0;
        for queue in 0..4 {
            if counts[queue] > done[queue] {
                hang(&mut self.hooks, queue, counts[queue], number)?;
                lacking += 1;
            }
        }
        if lacking == 0 {
            self.met.push(number, number);
        }
        self.lacking.push(lacking)?;
        Ok(())
    }

    /// The queues have come to these counts.
    pub(crate) fn advance(&mut self, done: [usize; 4])
        requires { (counts : List (List ℕ)) × (low : ℕ → ℕ) × (taken : ℕ → Bool) × ((q : ℕ) → q < 4 → low q ≤ slice_index done q)
            × IsHanging self.old.hooks self.old.lacking.items self.old.met counts low low taken }
        ensures { (counts : List (List ℕ)) (low : ℕ → ℕ) (taken : ℕ → Bool) → ((q : ℕ) → q < 4 → low q ≤ slice_index done q)
            → IsHanging self.old.hooks self.old.lacking.items self.old.met counts low low taken
            → IsHanging self.new.hooks self.new.lacking.items self.new.met counts (slice_index done) (slice_index done) taken }
    {
        for queue in 0..4 {
            self.settle(queue, done[queue]);
        }
    }

    /// Takes off what hangs on a queue under no more than a count.
    fn settle(&mut self, queue: usize, done: usize)
        requires queue { queue < 4 }
        requires hanging { MayCome self.old.hooks self.old.lacking.items self.old.met queue done }
        ensures { (counts : List (List ℕ)) (low high : ℕ → ℕ) (taken : ℕ → Bool) → done ≡ high queue
            → IsHanging self.old.hooks self.old.lacking.items self.old.met counts low high taken
            → IsHanging self.new.hooks self.new.lacking.items self.new.met counts (λ q. if q == queue then done else low q) high taken }
    {
        while self.take_off(queue, done) {}
    }

    /// Takes one off that hangs on a queue under no more than a count, if there is one.
    fn take_off(&mut self, queue: usize, done: usize) -> bool
        requires queue { queue < 4 }
        requires hanging { MayCome self.old.hooks self.old.lacking.items self.old.met queue done }
        ensures hanging { (counts : List (List ℕ)) (low high : ℕ → ℕ) (taken : ℕ → Bool) → done ≡ high queue
            → IsHanging self.old.hooks self.old.lacking.items self.old.met counts low high taken
            → IsHanging self.new.hooks self.new.lacking.items self.new.met counts low high taken }
        ensures fewer { result ≡ true → length (pairs_on self.new.hooks queue) < length (pairs_on self.old.hooks queue) }
        ensures none { result ≡ false → (x : ℕ × ℕ) → Contains (pairs_on self.new.hooks queue) x → done < x.0 }
    {
        let Some(number) = take_from(&mut self.hooks, queue, done) else {
            return false;
        };
        let lacking = &mut self.lacking[number as usize];
        *lacking -= 1;
        if *lacking == 0 {
            self.met.push(number, number);
        }
        true
    }

    /// Takes the least number that is met.
    pub(crate) fn take_next(&mut self) -> Option<u32>
        ensures some { IfSome result (λ i. (counts : List (List ℕ)) (low high : ℕ → ℕ) (taken : ℕ → Bool)
            → IsHanging self.old.hooks self.old.lacking.items self.old.met counts low high taken
            → IsNext self.old.lacking.items counts taken i
            × IsHanging self.new.hooks self.new.lacking.items self.new.met counts low high (λ j. taken j || j == i)) }
        ensures fewer { IfSome result (λ _. length self.new.met.pairs < length self.old.met.pairs) }
        ensures none { IfNone result ((self.new ≡ self.old) × ((counts : List (List ℕ)) (low high : ℕ → ℕ) (taken : ℕ → Bool)
            → IsHanging self.old.hooks self.old.lacking.items self.old.met counts low high taken
            → (j : ℕ) → j < length counts → slice_index self.old.lacking.items j ≡ 0 → IsTrue (taken j))) }
    {
        let all = self.lacking.len();
        self.met.pop_within(all)
    }
}

/// Takes a number off a queue that hangs there under no more than a count, if there is one.
fn take_from(hooks: &mut [Hooks; 4], queue: usize, done: usize) -> Option<u32>
    requires { queue < 4 }
    ensures some { IfSome result (λ i. (k : ℕ) × (h : Hung) × (k ≤ done)
        × IsPermutation (pairs_on hooks.old queue) ((k, i) ∷ h.pairs)
        × (hooks.new ≡ slice_set hooks.old queue h)) }
    ensures none { IfNone result ((h : Hung) × (h ≡ slice_index_or hooks.old queue h)
        × (hooks.new ≡ slice_set hooks.old queue h)
        × ((x : ℕ × ℕ) → Contains (pairs_on hooks.old queue) x → done < x.0)) }
{
    let on = &mut hooks[queue];
    on.pop_within(done)
}

/// Hangs a number on a queue. The only error is want of memory, or of numbers.
fn hang(hooks: &mut [Hooks; 4], queue: usize, count: usize, number: u32) -> Result<(), AllocError>
    requires { queue < 4 }
    ensures four { length hooks.old ≡ 4 }
    ensures hung { OnOk result ((h : Hung) × (hooks.new ≡ slice_set hooks.old queue h)
        × IsPermutation ((count, number) ∷ pairs_on hooks.old queue) h.pairs) }
{
    let Ok(count) = u32::try_from(count) else {
        return Err(AllocError);
    };
    let on = &mut hooks[queue];
    on.reserve(1)?;
    on.push(count, number);
    Ok(())
}
