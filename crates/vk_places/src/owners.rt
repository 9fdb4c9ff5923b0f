use crate::states::Owner;
use std::alloc::{AllocError, Global};
use std::collections::BTreeMap;
use vk_backing::Backing;

/// Whose a memory object is, and whether something that lies in it is mapped.
#[derive(Clone, Copy)]
pub(crate) struct Owned {
    /// Whose it is.
    pub(crate) owner: Owner,
    /// Whether an allocation in it is mapped.
    pub(crate) mapped: bool,
}

/// Whether an allocation is mapped, by its number; not where there is none.
fn is_mapped(backing: &Backing, allocation: Option<u64>) -> bool {
    let Some(number) = allocation else {
        return false;
    };
    match backing.pools().allocation(number) {
        Some(live) => live.maps > 0,
        None => false,
    }
}

/// Adds the memory objects that ids have of their own.
fn add_own(owners: &mut BTreeMap<u64, Owned>, backing: &Backing) -> Result<(), AllocError> {
    for (id, own) in backing.owned().iter() {
        let owner = Owner::Id(*id);
        let mapped = is_mapped(backing, own.allocation);
        owners.insert(own.object, Owned { owner, mapped })?;
    }
    Ok(())
}

/// Adds the memory objects that are blocks of pools.
fn add_blocks(owners: &mut BTreeMap<u64, Owned>, backing: &Backing) -> Result<(), AllocError> {
    for (id, number) in backing.pool_numbers().iter() {
        if !backing.pools().is_pool(*number) {
            continue;
        }
        let blocks = backing.pools().blocks(*number)?;
        for block in blocks.as_slice() {
            let owner = Owner::Block {
                pool: *id,
                block: block.number,
            };
            let mapped = false;
            owners.insert(block.memory, Owned { owner, mapped })?;
        }
    }
    Ok(())
}

/// Takes note of the blocks in which something is mapped.
fn note_mapped(owners: &mut BTreeMap<u64, Owned>, backing: &Backing) {
    for (_, number) in backing.allocation_numbers().iter() {
        let Some(live) = backing.pools().allocation(*number) else {
            continue;
        };
        let spot = backing.pools().place(*number);
        if let Some(owned) = owners.get_mut(&spot.memory) {
            owned.mapped = owned.mapped || live.maps > 0;
        }
    }
}

/// Whose each memory object is, by their numbers. The only error is want of memory.
pub(crate) fn owners_of(
    alloc: Global,
    backing: &Backing,
) -> Result<BTreeMap<u64, Owned>, AllocError> {
    let mut owners = BTreeMap::new(alloc);
    add_own(&mut owners, backing)?;
    add_blocks(&mut owners, backing)?;
    note_mapped(&mut owners, backing);
    Ok(owners)
}
