//! Raw memory: a block of slots from an allocator, lent out as slices. Nothing else has pointers.
ghost use Rattle.std.specs.Prelude.{◌≡◌, ℕ, ◌^◌, ◌<◌, List, length, replicate, IfSome};
ghost use Rattle.std.specs.Borrow.{sem, full_share, Array};
ghost use Rattle.std.specs.Ptr.{room_at, lies_at};
ghost use base.Fml.{ftrue};
ghost use denote.RawPtr.{Ptr};
ghost use Rattle.vk_nodes.specs.declared.slot.Slot.{Slot};
ghost use Rattle.vk_nodes.specs.contracts.slot.Slot.{the_row as slot_row};
ghost use Rattle.vk_nodes.specs.Inner.Ownership.{slots_at, slots_lent, slots_type};

use crate::slot::Slot;
use std::alloc::Allocator;
use std::marker::{Model, PhantomData, Send, Sync};

/// A block of slots, and where it lies. It has no `Drop`: `free` gives it back.
pub(crate) struct Block {
    start: *mut Slot,
    size: usize,
    pub(crate) ghost slots: { List Slot },
}

impl Model for Block {
    ghost also_owns = { λ b. slots_at b.start b.size b.slots };

    ghost also_shares = { λ b _ κ. slots_lent b.start b.size b.slots κ };
}

unsafe impl Send for Block {}

unsafe impl Sync for Block {}

/// The right to give a block back to its allocator. It takes no space.
pub(crate) struct Lease<A: Allocator> {
    marker: PhantomData<*const A>,
    pub(crate) ghost alloc: { A },
    pub(crate) ghost start: { Ptr },
    pub(crate) ghost size: { ℕ },
}

impl<A: Allocator> Model for Lease<A> {
    ghost also_owns = { λ l. A.dealloc_token l.alloc (slots_type l.size) l.start };

    ghost also_shares = { λ _ _ _. ftrue };
}

unsafe impl<A: Allocator + Send> Send for Lease<A> {}

// A `&` to it holds nothing.
unsafe impl<A: Allocator> Sync for Lease<A> {}

/// Writes `slot` into each place of fresh room.
unsafe fn fill_room(start: *mut Slot, size: usize, slot: Slot)
    requires count { size < 2 ^ 32 }
    requires* room { sem 𝓛 (room_at (Array slot_row size) start) }
    ensures* { sem 𝓛 (lies_at (Array slot_row size) full_share start (replicate size slot)) }
{
    let mut i = 0;
    while i < size {
        unsafe {
            *start.add(i) = slot;
        }
        i += 1;
    }
}

impl Block {
    ghost use Rattle.vk_nodes.specs.Inner.Lends.{lends_slots};

    /// A block of so many places, each of them `slot`, and the right to give it back.
    pub(crate) fn new<A: Allocator>(alloc: &A, size: usize, slot: Slot) -> Option<(Block, Lease<A>)>
        requires { size < 2 ^ 32 }
        ensures { IfSome result (λ m. (m.0.size ≡ size) × (m.0.slots ≡ replicate size slot) × (m.1.alloc ≡ alloc.now) × (m.1.start ≡ m.0.start) × (m.1.size ≡ size)) }
    {
        match alloc.allocate(size * size_of::<Slot>(), align_of::<Slot>()) {
            Ok(start) => {
                let start = start as *mut Slot;
                unsafe {
                    fill_room(start, size, slot);
                }
                let marker = PhantomData;
                Some((Block { start, size }, Lease { marker }))
            }
            Err(_) => None,
        }
    }

    /// Gives the block back to its allocator.
    pub(crate) fn free<A: Allocator>(self, lease: Lease<A>, alloc: &A)
        requires { (lease.alloc ≡ alloc.now) × (lease.start ≡ self.start) × (lease.size ≡ self.size) }
    {
        let Block { start, size } = self;
        let Lease { marker: _ } = lease;
        unsafe {
            alloc.deallocate(
                start as *mut u8,
                size * size_of::<Slot>(),
                align_of::<Slot>(),
            )
        }
    }

    /// The slots, to be read.
    pub(crate) fn as_slice(&self) -> &[Slot]
        ensures { (result.now ≡ self.now.slots) × (length result.now ≡ self.now.size) }
    {
        unsafe { std::slice::from_raw_parts(self.start, self.size) }
    }

    /// The slots, to be written.
    pub(crate) fn as_mut_slice(&mut self) -> &mut [Slot]
        ensures* writes_back { sem 𝓛 (lends_slots self.entry result) }
        ensures value { (result.now ≡ self.old.slots) × (length result.now ≡ self.old.size) }
    {
        unsafe { std::slice::from_raw_parts_mut(self.start, self.size) }
    }
}
