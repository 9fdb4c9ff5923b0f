ghost use Rattle.std.specs.Prelude.{◌≡◌, ◌==◌, ◌||◌, ◌&&◌, ℕ, Some, None, OnOk, not, is_some, if◌then◌else◌, max, option_and_then};
ghost use Rattle.std.specs.Option.{unwrap_or};
ghost use Rattle.std.specs.List.{fold};
ghost use Rattle.vk_model.specs.Basics.{among, holds};
ghost use Rattle.vk_model.specs.Trace.Objects.{made_by, ended_by, semaphore_in};
ghost use Rattle.vk_model.specs.Trace.Order.{signal_in, value_for};
ghost use Rattle.vk_queues.specs.Inner.Tallied.{tally_at, unknown, has_reached, after_entry, after_signal};

use std::alloc::{AllocError, Global};
use vk_ids::IdMap;
use vk_model::{Entry, SemaphoreSubmit};

/// What is known of an id.
#[derive(Clone, Copy)]
pub struct Tally {
    /// The initial value, where the newest object of the id is a semaphore.
    pub initial: Option<u64>,
    /// The greatest value that was signaled; 0 before the first.
    pub signaled: u64,
    /// Whether an entry has ended the id.
    pub is_ended: bool,
}

/// What is known of each id.
#[derive(Drop)]
pub struct Tallies {
    by_id: IdMap<Tally>,
}

impl Tallies {
    /// Nothing has happened.
    pub fn new(alloc: Global) -> Tallies
        ensures { (id : ℕ) → tally_at result id ≡ unknown }
    {
        Tallies {
            by_id: IdMap::new(alloc),
        }
    }

    /// What is known of an id.
    pub fn at(&self, id: u32) -> Tally
        ensures { result ≡ tally_at self.now id }
    {
        self.by_id.get(id).copied().unwrap_or(Tally {
            initial: None,
            signaled: 0,
            is_ended: false,
        })
    }

    fn put(&mut self, id: u32, tally: Tally) -> Result<(), AllocError>
        ensures { OnOk result ((other : ℕ) → tally_at self.new other ≡ (if other == id then tally else tally_at self.old other)) }
    {
        self.by_id.put(id, tally)?;
        Ok(())
    }

    /// Whether the id is a semaphore that is live.
    pub fn is_semaphore(&self, id: u32) -> bool
        ensures { let t = tally_at self.now id in result ≡ (not t.is_ended && is_some t.initial) }
    {
        let tally = self.at(id);
        !tally.is_ended && tally.initial.is_some()
    }

    /// Whether the counter has reached the value of a wait.
    pub fn has_reached(&self, wait: &SemaphoreSubmit) -> bool
        ensures { result ≡ has_reached (tally_at self.now wait.now.semaphore) wait.now.value }
    {
        let tally = self.at(wait.semaphore);
        match tally.initial {
            Some(initial) => wait.value <= initial.max(tally.signaled),
            None => false,
        }
    }

    /// Counts a signal.
    pub fn signal(&mut self, semaphore: u32, value: u64) -> Result<(), AllocError>
        ensures { OnOk result ((other : ℕ) → tally_at self.new other ≡ after_signal other (semaphore, value) (tally_at self.old other)) }
    {
        let tally = self.at(semaphore);
        self.put(
            semaphore,
            Tally {
                signaled: tally.signaled.max(value),
                ..tally
            },
        )
    }

    /// Counts the signals of a batch.
    pub fn signal_all(&mut self, signals: &[SemaphoreSubmit]) -> Result<(), AllocError>
        ensures { OnOk result ((other : ℕ) → tally_at self.new other ≡ fold (λ t s. after_signal other (s.semaphore, s.value) t) (tally_at self.old other) signals.now) }
    {
        for signal in signals {
            self.signal(signal.semaphore, signal.value)?;
        }
        Ok(())
    }

    /// The newest object of an id is a semaphore with this initial value. The id is new but in a trace
    /// that is refused, so that what is known of it is put back only where there was any.
    fn make_semaphore(&mut self, id: u32, initial: u64) -> Result<(), AllocError>
        ensures { OnOk result ((other : ℕ) → let t = tally_at self.old other in
            tally_at self.new other ≡ record t { initial = if other == id then Some initial else t.initial }) }
    {
        let new = Tally {
            initial: Some(initial),
            signaled: 0,
            is_ended: false,
        };
        match self.by_id.put(id, new)? {
            Some(known) => self.put(
                id,
                Tally {
                    initial: Some(initial),
                    ..known
                },
            ),
            None => Ok(()),
        }
    }

    /// The newest object of an id is no semaphore.
    fn make_other(&mut self, id: u32) -> Result<(), AllocError>
        ensures { OnOk result ((other : ℕ) → let t = tally_at self.old other in
            tally_at self.new other ≡ record t { initial = if other == id then None else t.initial }) }
    {
        let tally = self.at(id);
        if tally.initial.is_none() {
            return Ok(());
        }
        self.put(
            id,
            Tally {
                initial: None,
                ..tally
            },
        )
    }

    fn make(&mut self, entry: &Entry) -> Result<(), AllocError>
        ensures { OnOk result ((other : ℕ) → let t = tally_at self.old other in
            tally_at self.new other ≡ record t { initial = if holds (made_by entry.now) (λ j. other == j) then semaphore_in entry.now else t.initial }) }
    {
        match (entry.made_id(), initial_of(entry)) {
            (Some(id), Some(initial)) => self.make_semaphore(id, initial),
            (Some(id), None) => self.make_other(id),
            (None, _) => Ok(()),
        }
    }

    fn end_one(&mut self, id: u32) -> Result<(), AllocError>
        ensures { OnOk result ((other : ℕ) → let t = tally_at self.old other in
            tally_at self.new other ≡ record t { is_ended = other == id || t.is_ended }) }
    {
        let tally = self.at(id);
        self.put(
            id,
            Tally {
                is_ended: true,
                ..tally
            },
        )
    }

    fn end_all(&mut self, ids: &[u32]) -> Result<(), AllocError>
        ensures { OnOk result ((other : ℕ) → let t = tally_at self.old other in
            tally_at self.new other ≡ record t { is_ended = among other ids.now || t.is_ended }) }
    {
        for id in ids {
            self.end_one(*id)?;
        }
        Ok(())
    }

    fn end(&mut self, entry: &Entry) -> Result<(), AllocError>
        ensures { OnOk result ((other : ℕ) → let t = tally_at self.old other in
            tally_at self.new other ≡ record t { is_ended = among other (ended_by entry.now) || t.is_ended }) }
    {
        match entry {
            Entry::Free { memory } => self.end_one(*memory),
            Entry::Destroy { resource } => self.end_one(*resource),
            Entry::DropPool { pool } => self.end_one(*pool),
            Entry::EndPass { destroyed, .. } => self.end_all(destroyed.as_slice()),
            Entry::EndDefrag { defrag } => self.end_one(*defrag),
            _ => Ok(()),
        }
    }

    /// Counts an entry of the host.
    pub fn enter(&mut self, entry: &Entry) -> Result<(), AllocError>
        ensures { OnOk result ((other : ℕ) → tally_at self.new other ≡ after_entry other entry.now (tally_at self.old other)) }
    {
        self.make(entry)?;
        self.end(entry)?;
        if let Entry::Signal { semaphore, value } = entry {
            self.signal(*semaphore, *value)?;
        }
        Ok(())
    }
}

fn initial_of(entry: &Entry) -> Option<u64>
    ensures { result ≡ semaphore_in entry.now }
{
    match entry {
        Entry::Semaphore { initial, .. } => Some(*initial),
        _ => None,
    }
}
