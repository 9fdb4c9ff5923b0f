ghost use Rattle.std.specs.Prelude.{◌≡◌, ◌∷◌, ◌&&◌, ◌||◌, [], ℕ, List, nat_le, nat_lt, option_map, option_and_then};
ghost use Rattle.std.specs.List.{list_any};
ghost use Rattle.vk_model.specs.Basics.{holds};
ghost use Rattle.vk_model.specs.Sync.Node.{Node};
ghost use Rattle.vk_model.specs.Trace.Order.{value_for};
ghost use Rattle.vk_model.specs.Sync.Edge.{signaled_by, by_semaphore, initial_by};
ghost use Rattle.vk_order.specs.NodeViews.{act_of};
ghost use Rattle.vk_order.specs.Inner.Reaches.{Reaches, is_awaited_at};

use crate::act::Act;
use vk_model::{Entry, SemaphoreValue};

/// A signal, and what else was signaled to its semaphore so far: which waits hang on it.
#[derive(Clone, Copy)]
pub struct Reach {
    semaphore: u32,
    value: u64,
    /// The greatest value below its own that was signaled.
    low: Option<u64>,
    /// The greatest initial value.
    initial: Option<u64>,
}

/// What a node signals.
pub fn signal_of(act: &Act<'_>) -> Option<SemaphoreValue>
    ensures { option_map (λ x. (x.semaphore, x.value)) result ≡ signaled_by (act_of act.now) }
{
    match act {
        Act::Signals(signal) => Some(SemaphoreValue {
            semaphore: signal.semaphore,
            value: signal.value,
        }),
        Act::Hosts(Entry::Signal { semaphore, value }) => Some(SemaphoreValue {
            semaphore: *semaphore,
            value: *value,
        }),
        _ => None,
    }
}

/// Before the first node.
pub fn reach_of(act: &Act<'_>) -> Option<Reach>
    ensures { (m : Node) → m.act ≡ act_of act.now → Reaches [] m result }
{
    let signal = signal_of(act)?;
    Some(Reach {
        semaphore: signal.semaphore,
        value: signal.value,
        low: None,
        initial: None,
    })
}

/// After one node more.
pub fn passed(reach: Option<Reach>, act: &Act<'_>) -> Option<Reach>
    ensures { (ns : List Node) (m n : Node) → n.act ≡ act_of act.now → Reaches ns m reach → Reaches (n ∷ ns) m result }
{
    let reach = reach?;
    Some(Reach {
        low: greater(reach.low, reach.below(act)),
        initial: greater(reach.initial, reach.initial_by(act)),
        ..reach
    })
}

/// The greater of two values, where there are any.
fn greater(first: Option<u64>, second: Option<u64>) -> Option<u64>
    ensures { (v : ℕ) → holds result (nat_le v) ≡ (holds second (nat_le v) || holds first (nat_le v)) }
{
    match (first, second) {
        (Some(first), Some(second)) => Some(first.max(second)),
        (Some(value), None) | (None, Some(value)) => Some(value),
        (None, None) => None,
    }
}

impl Reach {
    /// A value below its own that a node signals.
    fn below(&self, act: &Act<'_>) -> Option<u64>
        ensures { (v : ℕ) → holds result (nat_le v) ≡ holds (option_and_then (value_for self.now.semaphore) (signaled_by (act_of act.now))) (λ y. nat_le v y && nat_lt y self.now.value) }
    {
        match signal_of(act) {
            Some(signal) if signal.semaphore == self.semaphore && signal.value < self.value => {
                Some(signal.value)
            }
            _ => None,
        }
    }

    /// The initial value that a node gives to the semaphore.
    fn initial_by(&self, act: &Act<'_>) -> Option<u64>
        ensures { result ≡ initial_by self.now.semaphore (act_of act.now) }
    {
        match act {
            Act::Hosts(Entry::Semaphore { id, initial }) if *id == self.semaphore => {
                Some(*initial)
            }
            _ => None,
        }
    }

    /// Whether a wait for a value hangs on the signal.
    fn is_awaited_by(&self, semaphore: u32, value: u64) -> bool
        ensures { result ≡ is_awaited_at self.now (semaphore, value) }
    {
        self.semaphore == semaphore
            && value <= self.value
            && !self.low.is_some_and(|low| value <= low)
            && !self.initial.is_some_and(|initial| value <= initial)
    }
}

/// Whether a node that comes next hangs on the signal.
pub fn is_awaited(reach: Option<Reach>, act: &Act<'_>) -> bool
    ensures { (ns : List Node) (m n : Node) → n.act ≡ act_of act.now → Reaches ns m reach → result ≡ by_semaphore ns m n }
{
    let Some(reach) = reach else { return false };
    match act {
        Act::Waits(wait) => reach.is_awaited_by(wait.semaphore, wait.value),
        Act::Hosts(Entry::Wait { waits }) => is_awaited_by_some(&reach, waits.as_slice()),
        _ => false,
    }
}

fn is_awaited_by_some(reach: &Reach, waits: &[SemaphoreValue]) -> bool
    ensures { result ≡ list_any (λ w. is_awaited_at reach.now (w.semaphore, w.value)) waits.now }
{
    waits
        .iter()
        .any(|wait| reach.is_awaited_by(wait.semaphore, wait.value))
}
