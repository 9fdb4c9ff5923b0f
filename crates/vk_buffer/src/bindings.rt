ghost use Rattle.std.specs.Prelude.{◌≡◌, ◌+◌, ◌^◌, ◌<◌, ◌==◌, ℕ, [], OnOk, OnErr, IfSome};
ghost use Rattle.std.specs.Ordering.{nat_cmp};
ghost use Rattle.std.specs.BTreeMap.{IsOrdered};
ghost use Rattle.vk_model.specs.Memory.Addresses.{bit};
ghost use Rattle.vk_buffer.specs.BoundMemory as memory;
ghost use Rattle.vk_buffer.specs.Requirements.{IsNeed};
ghost use Rattle.vk_buffer.specs.Inner.Neighbors.{IsLastUpTo, IsFirstAfter, conflicts_there};

use crate::conflicts::{Range, conflict};
use std::alloc::{AllocFailed, Global};
use std::collections::BTreeMap;
use std::marker::Model;
use std::ops::Bound;
use vk_model::{Kind, Need, Rule};

/// The memory type whose host accesses go through a cache (profile).
const CACHED_TYPE: u32 = 2;

/// The bytes of an atom of memory that isn't coherent, as `nonCoherentAtomSize` (profile).
const ATOM: u64 = 64;

/// The number of bits of the mask of memory types.
const MASK_BITS: u32 = 32;

/// Why a resource isn't bound. Nothing is changed then.
#[derive(Clone, Copy, Debug, Drop, PartialEq, Eq)]
pub enum BindError {
    /// The first rule that the binding breaks: MEMORY_TYPE, BIND_RANGE, BIND_ALIGN or ALIASED.
    Refused(Rule),
    /// The program's own memory could not grow.
    NoMemory,
}

impl<T: Drop> From<AllocFailed<T>> for BindError {
    ghost use Rattle.vk_buffer.specs.declared.bindings.BindError.TheVariants.{NoMemory};
    ghost use Rattle.std.specs.Prelude.{◌≡◌};

    ghost from_gives = { λ _ e. e ≡ NoMemory };

    fn from(_refused: AllocFailed<T>) -> BindError {
        BindError::NoMemory
    }
}

/// A resource that is bound in a memory object.
#[derive(Clone, Copy, Debug, PartialEq, Eq)]
pub struct BoundResource {
    /// The bytes of memory that it takes.
    pub size: u64,
    /// How its bytes lie.
    pub kind: Kind,
}

/// What is bound in a memory object, by its offset.
#[derive(Drop)]
pub struct Bindings {
    size: u64,
    memory_type: u32,
    bound: BTreeMap<u64, BoundResource>,
}

impl Model for Bindings {
    ghost use Rattle.vk_buffer.specs.BoundMemory.{BoundMemory};
    ghost use Rattle.vk_buffer.specs.Inner.Neighbors.{AreApart};

    ghost Value = { BoundMemory };

    ghost view = { λ b. record {
      size = b.size;
      memory_type = b.memory_type;
      bound = b.bound.entries;
    } };

    ghost invariant = { λ b. AreApart b.size b.bound.entries };
}

impl Bindings {
    /// A memory object of `size` bytes and this memory type, with nothing bound in it. It takes no
    /// memory.
    pub fn new(alloc: Global, size: u64, memory_type: u32) -> Bindings
        ensures { result ≡ record { size = size; memory_type = memory_type; bound = [] } }
    {
        Bindings {
            size,
            memory_type,
            bound: BTreeMap::new(alloc),
        }
    }

    /// Binds a resource with this need at an offset in bytes, as `vkBindBufferMemory` and
    /// `vkBindImageMemory`.
    ///
    /// # Errors
    /// The first rule that the binding breaks, or want of memory. Nothing is changed then.
    pub fn bind(&mut self, offset: u64, need: Need, kind: Kind) -> Result<(), BindError>
        requires { IsNeed need }
        ensures refused { memory.refused_by result ≡ memory.refusal self.old offset need kind }
        ensures ok { OnOk result (self.new
            ≡ memory.with_bound self.old offset (record { size = need.size; kind = kind })) }
        ensures err { OnErr result (self.new ≡ self.old) }
    {
        if let Some(rule) = self.refusal(offset, need, kind) {
            return Err(BindError::Refused(rule));
        }
        let resource = BoundResource {
            size: need.size,
            kind,
        };
        self.bound.insert(offset, resource)?;
        Ok(())
    }

    /// Takes away what is bound at an offset, as the resource's end does.
    pub fn unbind(&mut self, offset: u64)
        ensures { self.new ≡ memory.without self.old offset }
    {
        self.bound.remove(&offset);
    }

    /// The first rule that a binding would break.
    fn refusal(&self, offset: u64, need: Need, kind: Kind) -> Option<Rule>
        requires { 0 < need.align }
        ensures { result ≡ memory.refusal self.now offset need kind }
    {
        if !allows(need.types, self.memory_type) {
            return Some(Rule::MemoryType);
        }
        if need.size > self.size || offset > self.size - need.size {
            return Some(Rule::BindRange);
        }
        if offset % need.align != 0 || (self.memory_type == CACHED_TYPE && offset % ATOM != 0) {
            return Some(Rule::BindAlign);
        }
        if self.is_aliased(offset, need.size, kind) {
            return Some(Rule::Aliased);
        }
        None
    }

    /// Whether a resource of `size` bytes at an offset would conflict with one that is bound: they
    /// have bytes in common, or bytes on one page while they aren't of one kind.
    pub fn is_aliased(&self, offset: u64, size: u64, kind: Kind) -> bool
        ensures { result ≡ memory.is_aliased self.now offset size kind }
    {
        let range = Range {
            start: offset,
            size,
            kind,
        };
        // No binding ends past the object, and so past the numbers of 64 bits.
        let _size = self.size;
        let before = last_upto(&self.bound, offset);
        let after = first_after(&self.bound, offset);
        conflicts_with(range, before) || conflicts_with(range, after)
    }
}

/// Whether a mask of memory types has one.
fn allows(types: u32, memory_type: u32) -> bool
    ensures { result ≡ (bit types memory_type == 1) }
{
    memory_type < MASK_BITS && (types >> memory_type) % 2 == 1
}

fn conflicts_with(range: Range, there: Option<(u64, BoundResource)>) -> bool
    requires { IfSome there (λ b. b.0 + b.1.size < 2 ^ 64) }
    ensures { result ≡ conflicts_there range.start range.size range.kind there }
{
    match there {
        Some((start, resource)) => conflict(
            range,
            Range {
                start,
                size: resource.size,
                kind: resource.kind,
            },
        ),
        None => false,
    }
}

/// What is bound last of all that starts at or before an offset. What is bound isn't in conflict
/// with one another, so what comes before it doesn't reach past it.
fn last_upto(bound: &BTreeMap<u64, BoundResource>, offset: u64) -> Option<(u64, BoundResource)>
    ensures last { IsLastUpTo bound.now.entries offset result }
    ensures ordered { IsOrdered nat_cmp bound.now }
{
    let upto = (Bound::Unbounded, Bound::Included(offset));
    match bound.range(upto).next_back() {
        Some((start, resource)) => Some((*start, *resource)),
        None => None,
    }
}

/// What is bound first of all that starts after an offset.
fn first_after(bound: &BTreeMap<u64, BoundResource>, offset: u64) -> Option<(u64, BoundResource)>
    ensures { IsFirstAfter bound.now.entries offset result }
{
    let after = (Bound::Excluded(offset), Bound::Unbounded);
    match bound.range(after).next() {
        Some((start, resource)) => Some((*start, *resource)),
        None => None,
    }
}
