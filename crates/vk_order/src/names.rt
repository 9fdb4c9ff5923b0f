ghost use Rattle.std.specs.Prelude.{◌≡◌, ◌∷◌, ◌||◌, [], ℕ, Bool, false, List, OnOk, nat_le};
ghost use Rattle.std.specs.List.{list_any};
ghost use Rattle.std.specs.Option.{option_copied};
ghost use Rattle.vk_ids.specs.Ids.{value_of};
ghost use Rattle.vk_model.specs.Basics.{holds};
ghost use Rattle.vk_model.specs.Sync.Node.{Node, Hosts};
ghost use Rattle.vk_model.specs.Sync.Edge.{pairs, by_semaphore};
ghost use Rattle.vk_order.specs.declared.lines.Line.{Line as AnyLine};
ghost use Rattle.vk_order.specs.NodeViews.{act_of, node_of};
ghost use Rattle.vk_order.specs.Inner.Links.{by_name};
ghost use Rattle.vk_order.specs.Inner.Fronts.{IsFront, IsNamed};
ghost use Rattle.vk_order.specs.Inner.Names.{is_awaited_for, IsNameless, AreSubmits, AreSets, AreSignals, AreInitials, IsNames, IsNext};

use crate::act::Act;
use crate::acts::Row;
use crate::awaiting::signal_of;
use crate::fronts::{Front, named_with};
use crate::keyed::Keyed;
use std::alloc::{AllocError, Global};
use std::collections::BTreeMap;
use vk_ids::IdMap;
use vk_model::{Entry, SemaphoreValue};

/// What comes after the nodes that lead to later ones by a name.
#[derive(Drop)]
pub struct Names {
    /// After submits, by their entries.
    submits: BTreeMap<usize, Front>,
    /// After elements of sets, by their events and indices.
    sets: Keyed,
    /// After signals, by their semaphores and values.
    signals: Keyed,
    /// The greatest initial value of each semaphore.
    initials: IdMap<u64>,
}

impl Names {
    /// No names.
    pub fn new(alloc: Global) -> Names
        ensures { (ls : List AnyLine) → IsNames [] ls result }
    {
        Names {
            submits: BTreeMap::new(alloc),
            sets: Keyed::new(alloc),
            signals: Keyed::new(alloc),
            initials: IdMap::new(alloc),
        }
    }

    /// Adds a row that comes next, with what comes after it.
    pub fn add(&mut self, alloc: Global, row: &Row<'_>, own: &Front) -> Result<(), AllocError>
        ensures { OnOk result ((ns : List Node) (ls : List AnyLine) (n : Node) → IsNext ns ls n row.now own.now → IsNames ns ls self.old → IsNames (n ∷ ns) ls self.new) }
    {
        if !row.act.has_name() {
            return Ok(());
        }
        add_submit(alloc, &mut self.submits, row, own)?;
        add_set(alloc, &mut self.sets, row, own)?;
        add_signal(alloc, &mut self.signals, row, own)?;
        add_initial(&mut self.initials, row)?;
        Ok(())
    }

    /// Makes a front come after the nodes that lead to a row by a name too.
    pub fn join_names(&self, front: &mut Front, row: &Row<'_>) -> Result<(), AllocError>
        ensures { OnOk result ((ns : List Node) (ls : List AnyLine) (f : Node → Bool) (j : ℕ) → IsNames ns ls self.now → IsFront ns ls f front.old → IsFront ns ls (λ k. f k || by_name ns k (node_of j row.now)) front.new) }
    {
        front.join_named(self.submits.get(&row.point.entry))?;
        front.join_named(self.set_of(&row.act))?;
        self.join_signals(front, &row.act)?;
        Ok(())
    }

    /// The front of the elements of sets that lead to an element of an await.
    fn set_of(&self, act: &Act<'_>) -> Option<&Front>
        ensures { (ns : List Node) (ls : List AnyLine) → AreSets ns ls self.now.sets → IsNamed ns ls (λ k. pairs k.act (act_of act.now)) (option_copied result) }
    {
        match act {
            Act::Await(event, k, _) => self.sets.get(*event, *k as u64),
            _ => None,
        }
    }

    /// The front of the signal that a wait hangs on.
    fn signal_for(&self, semaphore: u32, value: u64) -> Option<&Front>
        ensures { (ns : List Node) (ls : List AnyLine) → IsNames ns ls self.now → IsNamed ns ls (is_awaited_for ns semaphore value) (option_copied result) }
    {
        if self.is_enough(semaphore, value) {
            return None;
        }
        self.signals.least_from(semaphore, value)
    }

    /// Whether the initial value of a semaphore is enough for a wait.
    fn is_enough(&self, semaphore: u32, value: u64) -> bool
        ensures { result ≡ holds (value_of self.now.initials semaphore) (nat_le value) }
    {
        match self.initials.get(semaphore) {
            Some(initial) => value <= *initial,
            None => false,
        }
    }

    /// Makes a front come after the signals that an act waits for too.
    fn join_signals(&self, front: &mut Front, act: &Act<'_>) -> Result<(), AllocError>
        ensures { OnOk result ((ns : List Node) (ls : List AnyLine) (f : Node → Bool) (n : Node) → n.act ≡ act_of act.now → IsNames ns ls self.now → IsFront ns ls f front.old → IsFront ns ls (λ k. f k || by_semaphore ns k n) front.new) }
    {
        match act {
            Act::Waits(wait) => {
                front.join_named(self.signal_for(wait.semaphore, wait.value))?;
                Ok(())
            }
            Act::Hosts(entry) => {
                self.join_waits(front, entry)?;
                Ok(())
            }
            _ => Ok(()),
        }
    }

    /// The same of a host entry.
    fn join_waits(&self, front: &mut Front, entry: &Entry) -> Result<(), AllocError>
        ensures { OnOk result ((ns : List Node) (ls : List AnyLine) (f : Node → Bool) (n : Node) → n.act ≡ Hosts entry.now → IsNames ns ls self.now → IsFront ns ls f front.old → IsFront ns ls (λ k. f k || by_semaphore ns k n) front.new) }
    {
        match entry {
            Entry::Wait { waits } => {
                self.join_each(front, waits.as_slice())?;
                Ok(())
            }
            _ => Ok(()),
        }
    }

    /// The same of its waits.
    fn join_each(&self, front: &mut Front, waits: &[SemaphoreValue]) -> Result<(), AllocError>
        ensures { OnOk result ((ns : List Node) (ls : List AnyLine) (f : Node → Bool) → IsNames ns ls self.now → IsFront ns ls f front.old → IsFront ns ls (λ k. f k || list_any (λ w. is_awaited_for ns w.semaphore w.value k) waits.now) front.new) }
    {
        for wait in waits {
            front.join_named(self.signal_for(wait.semaphore, wait.value))?;
        }
        Ok(())
    }
}

impl Act<'_> {
    /// Whether it is an act of those that may lead to later ones by a name, or make a semaphore.
    fn has_name(&self) -> bool
        ensures { result ≡ false → IsNameless (act_of self.now) }
    {
        matches!(self, Act::Hosts(_) | Act::Signals(_) | Act::Set(..))
    }
}

fn add_submit(
    alloc: Global,
    submits: &mut BTreeMap<usize, Front>,
    row: &Row<'_>,
    own: &Front,
) -> Result<(), AllocError>
    ensures { OnOk result ((ns : List Node) (ls : List AnyLine) (n : Node) → IsNext ns ls n row.now own.now → AreSubmits ns ls submits.old → AreSubmits (n ∷ ns) ls submits.new) }
{
    if row.is_submit() {
        let entry = row.point.entry;
        let front = named_with(alloc, submits.get(&entry), own)?;
        submits.insert(entry, front)?;
    }
    Ok(())
}

fn add_set(alloc: Global, sets: &mut Keyed, row: &Row<'_>, own: &Front) -> Result<(), AllocError>
    ensures { OnOk result ((ns : List Node) (ls : List AnyLine) (n : Node) → IsNext ns ls n row.now own.now → AreSets ns ls sets.old → AreSets (n ∷ ns) ls sets.new) }
{
    let Act::Set(event, k, _) = row.act else {
        return Ok(());
    };
    let k = k as u64;
    let front = named_with(alloc, sets.get(event, k), own)?;
    sets.set(alloc, event, k, front)?;
    Ok(())
}

fn add_signal(
    alloc: Global,
    signals: &mut Keyed,
    row: &Row<'_>,
    own: &Front,
) -> Result<(), AllocError>
    ensures { OnOk result ((ns : List Node) (ls : List AnyLine) (n : Node) → IsNext ns ls n row.now own.now → AreSignals ns ls signals.old → AreSignals (n ∷ ns) ls signals.new) }
{
    let Some(signal) = signal_of(&row.act) else {
        return Ok(());
    };
    let SemaphoreValue { semaphore, value } = signal;
    let front = named_with(alloc, signals.get(semaphore, value), own)?;
    signals.set(alloc, semaphore, value, front)?;
    Ok(())
}

fn add_initial(initials: &mut IdMap<u64>, row: &Row<'_>) -> Result<(), AllocError>
    ensures { OnOk result ((ns : List Node) (n : Node) → n.act ≡ act_of row.now.act → AreInitials ns initials.old → AreInitials (n ∷ ns) initials.new) }
{
    let Act::Hosts(Entry::Semaphore { id, initial }) = row.act else {
        return Ok(());
    };
    let Some(before) = initials.put(*id, *initial)? else {
        return Ok(());
    };
    if before > *initial {
        initials.put(*id, before)?;
    }
    Ok(())
}
