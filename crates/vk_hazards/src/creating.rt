use std::alloc::{AllocError, Global};
use std::collections::{BTreeMap, BTreeSet};
use vk_model::{Action, Entry, Place, Point, Sharing};

/// The entries of some points that made ids; of several that made one the last.
#[derive(Drop)]
pub struct CreatingEntries<'a> {
    entries: BTreeMap<u32, &'a Entry>,
}

impl<'a> CreatingEntries<'a> {
    /// Those of some points. The only error is want of memory.
    pub fn of(alloc: Global, points: &[Point<'a>]) -> Result<CreatingEntries<'a>, AllocError> {
        let mut entries = BTreeMap::new(alloc);
        for point in points {
            if let Action::Host(entry) = point.action
                && let Some(id) = entry.made_id()
            {
                entries.insert(id, entry)?;
            }
        }
        Ok(CreatingEntries { entries })
    }

    /// The entry that made an id.
    pub fn entry(&self, id: u32) -> Option<&'a Entry> {
        self.entries.get(&id).copied()
    }

    /// Whether one queue family at a time owns a resource.
    pub fn is_exclusive(&self, resource: u32) -> bool {
        match self.entry(resource) {
            Some(Entry::Buffer { info, .. }) => info.sharing == Sharing::Exclusive,
            Some(Entry::Image { info, .. }) => info.sharing == Sharing::Exclusive,
            _ => false,
        }
    }

    /// Whether the host reaches a resource's memory through a cache.
    pub fn is_cached(&self, resource: u32) -> bool {
        let Some(entry) = self.entry(resource) else {
            return false;
        };
        match place_in(entry) {
            Some(Place::Dedicated { memory_type }) => memory_type == 2,
            Some(Place::Memory { memory, .. }) => match self.entry(memory) {
                Some(Entry::Memory { info, .. }) => info.memory_type == 2,
                _ => false,
            },
            Some(Place::Pool { pool } | Place::PoolUpper { pool }) => match self.entry(pool) {
                Some(Entry::Pool { info, .. }) => info.memory_type == 2,
                _ => false,
            },
            None => false,
        }
    }
}

/// Where a resource lies, by the entry that made it.
pub fn place_in(entry: &Entry) -> Option<Place> {
    match entry {
        Entry::Buffer { info, .. } => Some(info.place),
        Entry::Image { info, .. } => Some(info.place),
        _ => None,
    }
}

/// The entry and the number of each batch that has points.
pub fn started_batches(
    alloc: Global,
    points: &[Point<'_>],
) -> Result<BTreeSet<(usize, usize)>, AllocError> {
    let mut started = BTreeSet::new(alloc);
    for point in points {
        if !matches!(point.action, Action::Host(_)) {
            started.insert((point.entry, point.batch))?;
        }
    }
    Ok(started)
}
