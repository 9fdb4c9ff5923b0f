ghost use Rattle.std.specs.Prelude.{◌≡◌, ◌<◌, ◌≤◌, ◌^◌, [], Some, None, min, IfSome, map, IsPermutation, IfOk, OnErr, IsSomeAnd, IsErrOf};
ghost use Rattle.vma_tlsf.specs.Inner.Steps.{AreAlike};
ghost use Rattle.vma_tlsf.specs.Inner.Wants.{taken_of_want};
ghost use Rattle.vma_tlsf.specs.Inner.Fits.{whole_node};
ghost use Rattle.vma_tlsf.specs.Inner.Changes.{HasChain, IsPlaceIn, TakesMore};
ghost use Rattle.vma_tlsf.specs.Inner.Chain.{taken_in};
ghost use Rattle.vma_tlsf.specs.Inner.Listed.{IsTakenHere, IsTakenBy};
ghost use Rattle.vk_model.specs.Memory.TakenRanges.{taken_of};

use crate::changes::{put, release};
use crate::lists::Lists;
use crate::near::{lowest_from, set_near, set_near_freed, slot_near};
use crate::places::{Place, Want, find_place, is_all_free, longest_free, smaller};
use crate::ranges::ranges_of;
use crate::steps::{MOST_ADDED, fresh};
use std::alloc::{AllocError, Global};
use std::marker::Model;
use vk_model::{Kind, SubFault, Suballoc, TakenRange};
use vk_nodes::{Filled, Node, RangeState};

/// What a search of a block for resources of both kinds asks for more: two pages, in bytes.
const TWO_PAGES: u64 = 2048;

/// A block of memory of which ranges are taken.
#[derive(Drop)]
pub struct Tlsf {
    alloc: Global,
    size: u64,
    /// What a search asks for beyond the size and the alignment, in bytes.
    more: u64,
    nodes: Filled,
    /// The slot of the range that starts at 0.
    first: u32,
    lists: Lists,
    /// For each 512 bytes, as far as ranges were taken, a slot whose range is likely to be near.
    near: Vec<u32>,
}

impl Model for Tlsf {
    ghost use Rattle.vma_tlsf.specs.Block.{Block};

    ghost Value = { Block };

    ghost use Rattle.vma_tlsf.specs.Inner.IsTlsf.{IsTlsf, block_of};

    ghost view = { block_of };

    ghost invariant = { IsTlsf };
}

impl Tlsf {
    ghost use Rattle.vk_model.specs.Memory.Suballocation.{IsRequest, IsTakenAt, Puts};
    ghost use Rattle.vk_model.specs.Memory.Room.{lowest, is_none_left};
    ghost use Rattle.vk_model.specs.Memory.LinearBlocks.{others};
    ghost use Rattle.vma_tlsf.specs.Block.{taken as all_taken, IsExhaustedBelow};

    /// A block of `size` bytes, of which nothing is taken.
    pub fn new(alloc: Global, size: u64) -> Result<Tlsf, AllocError>
        requires some { 0 < size }
        requires bound { size < 2 ^ 62 }
        ensures { IfOk result (λ t. t ≡ record { size = size; taken = [] }) }
    {
        Tlsf::with_more(alloc, size, 0)
    }

    /// The same for resources of both kinds: a search asks for two pages more.
    pub fn mixed(alloc: Global, size: u64) -> Result<Tlsf, AllocError>
        requires some { 0 < size }
        requires bound { size < 2 ^ 62 }
        ensures { IfOk result (λ t. t ≡ record { size = size; taken = [] }) }
    {
        Tlsf::with_more(alloc, size, TWO_PAGES)
    }

    fn with_more(alloc: Global, size: u64, more: u64) -> Result<Tlsf, AllocError>
        requires some { 0 < size }
        requires bound { size < 2 ^ 62 }
        requires more { more ≤ 2048 }
        ensures { IfOk result (λ t. t ≡ record { size = size; taken = [] }) }
    {
        let mut lists = Lists::new(alloc)?;
        let mut nodes = Filled::new(alloc, MOST_ADDED)?;
        let first = fresh(&mut nodes)?;
        nodes.set(first, whole(size));
        lists.push(&mut nodes, first);
        Ok(Tlsf {
            alloc,
            size,
            more,
            nodes,
            first,
            lists,
            near: Vec::new(alloc),
        })
    }

    /// As `allocate`, ending at or below `limit`, at the lowest such place. `NoRoom` is answered
    /// where there is none. The search begins at `low`, below which the request fits nowhere.
    pub fn allocate_below(
        &mut self,
        bytes: u64,
        align: u64,
        kind: Kind,
        low: u64,
        limit: u64,
    ) -> Result<u64, SubFault>
        requires request { IsRequest bytes align }
        requires low { IsExhaustedBelow self.old.size (all_taken self.old) (record { size = bytes; align = align; kind = kind }) low }
        ensures ok { IfOk result (λ start. Puts (all_taken self.old) (all_taken self.new) (record { size = bytes; align = align; kind = kind }) start) }
        ensures lowest { IfOk result (λ start. lowest (all_taken self.old) (record { size = bytes; align = align; kind = kind }) 0 (min limit self.old.size) ≡ Some start) }
        ensures no_room { IsErrOf result SubFault.NoRoom → lowest (all_taken self.old) (record { size = bytes; align = align; kind = kind }) 0 (min limit self.old.size) ≡ None }
        ensures err { OnErr result (all_taken self.new ≡ all_taken self.old) }
        ensures block { self.new.size ≡ self.old.size }
    {
        let want = Want {
            size: bytes,
            align,
            kind,
        };
        if bytes > self.size {
            return Err(SubFault::NoRoom);
        }
        let high = smaller(limit, self.size);
        let found = lowest_from(&self.nodes, &self.near, self.first, want, low, high);
        take(
            &mut self.nodes,
            &mut self.lists,
            &mut self.near,
            found,
            want,
        )
    }

    /// The lowest place of a request that ends at or below `limit`, of which nothing is taken. The
    /// search begins at `low`, below which the request fits nowhere.
    pub fn lowest_below(
        &self,
        bytes: u64,
        align: u64,
        kind: Kind,
        low: u64,
        limit: u64,
    ) -> Option<u64>
        requires request { IsRequest bytes align }
        requires low { IsExhaustedBelow self.now.size (all_taken self.now) (record { size = bytes; align = align; kind = kind }) low }
        ensures { result ≡ lowest (all_taken self.now) (record { size = bytes; align = align; kind = kind }) 0 (min limit self.now.size) }
    {
        let want = Want {
            size: bytes,
            align,
            kind,
        };
        if bytes > self.size {
            return None;
        }
        let high = smaller(limit, self.size);
        let found = lowest_from(&self.nodes, &self.near, self.first, want, low, high);
        match found {
            Some(place) => Some(place.start),
            None => None,
        }
    }

    /// Gives back the range that starts here.
    pub fn give_back(&mut self, start: u64)
        requires { IsTakenAt start (all_taken self.old) }
        ensures freed { IsPermutation (others start (all_taken self.old)) (all_taken self.new) }
        ensures block { self.new.size ≡ self.old.size }
    {
        let _block = &self.size;
        self.free(start);
    }

    /// Whether nothing is taken.
    pub fn is_empty(&self) -> bool
        ensures { result ≡ is_none_left (all_taken self.now) }
    {
        is_all_free(&self.nodes, self.first, self.size)
    }

    /// The ranges that are taken, by place.
    pub fn taken(&self) -> Result<Vec<TakenRange>, AllocError>
        ensures { IfOk result (λ ranges. IsPermutation (map taken_of ranges.items) (all_taken self.now)) }
    {
        let mut ranges = ranges_of(self.alloc, &self.nodes)?;
        ranges.sort_by_key(|range| range.start)?;
        Ok(ranges)
    }
}

impl Suballoc for Tlsf {
    ghost use Rattle.vma_tlsf.specs.Block.{taken as all_taken};
    ghost use Rattle.vk_model.specs.Memory.Room.{CanHold};
    ghost use Rattle.vma_tlsf.specs.Inner.Sound.{taken_is_sound};

    ghost size = { λ b. b.size };

    ghost taken = { all_taken };

    ghost can_hold = { λ b r. CanHold b.size (all_taken b) r };

    ghost sound = { λ b. taken_is_sound b };

    fn allocate(&mut self, bytes: u64, align: u64, kind: Kind) -> Result<u64, SubFault> {
        let want = Want {
            size: bytes,
            align,
            kind,
        };
        if bytes > self.size {
            return Err(SubFault::NoRoom);
        }
        let found = find_place(
            &self.nodes,
            &self.lists,
            self.first,
            want,
            self.more,
            self.size,
        );
        take(
            &mut self.nodes,
            &mut self.lists,
            &mut self.near,
            found,
            want,
        )
    }

    fn free(&mut self, start: u64) {
        let found = slot_near(&self.nodes, &self.near, self.first, start);
        let joined = release(&mut self.nodes, &mut self.lists, found.slot);
        set_near_freed(&mut self.near, start, found, joined);
    }

    fn largest_free(&self) -> u64 {
        longest_free(&self.nodes, self.first, self.size)
    }
}

/// Takes a place that was found.
fn take(
    nodes: &mut Filled,
    lists: &mut Lists,
    near: &mut Vec<u32>,
    found: Option<Place>,
    want: Want,
) -> Result<u64, SubFault>
    requires chain { HasChain nodes.old }
    requires place { IfSome found (λ place. IsPlaceIn nodes.old place.slot place.start want.size) }
    requires some { 0 < want.size }
    ensures ok { IfOk result (λ start. IsSomeAnd found (λ place. place.start ≡ start) × TakesMore nodes.old nodes.new (taken_of_want start want)) }
    ensures no_room { IsErrOf result SubFault.NoRoom → found ≡ None }
    ensures err { OnErr result (AreAlike nodes.old nodes.new) }
{
    let Some(place) = found else {
        return Err(SubFault::NoRoom);
    };
    let Some(slot) = put(nodes, lists, place, want) else {
        return Err(SubFault::NoMemory);
    };
    set_near(near, place.start, slot);
    Ok(place.start)
}

/// A free range of a whole block.
fn whole(size: u64) -> Node
    ensures { result ≡ whole_node size }
{
    Node {
        start: 0,
        size,
        before: None,
        after: None,
        previous_free: None,
        next_free: None,
        state: RangeState::Free,
    }
}
