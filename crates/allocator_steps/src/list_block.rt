ghost use Rattle.std.specs.Prelude.{◌≡◌, ◌<◌, ◌^◌, IfOk, OnErr};
ghost use Rattle.vma_tlsf.specs.Block.{taken};
ghost use Rattle.allocator_steps.specs.Starts.{AreStarts, AddsStart};

use crate::live_block::{LiveBlock, Which};
use crate::request::{Request, Target};
use crate::starts::remove;
use std::alloc::{AllocError, Global};
use std::collections::VecDeque;
use vk_model::{SubFault, Suballoc, TakenRange};
use vma_tlsf::Tlsf;

/// A block by two-level lists, with the starts of the ranges that are live in it.
#[derive(Drop)]
pub struct ListBlock {
    block: Tlsf,
    starts: VecDeque<u64>,
    ghost live: { AreStarts block starts.items },
}

impl ListBlock {
    /// A block of `size` bytes of which nothing is taken.
    pub fn plain(alloc: Global, size: u64) -> Result<ListBlock, AllocError>
        requires some { 0 < size }
        requires bound { size < 2 ^ 62 }
    {
        let block = Tlsf::new(alloc, size)?;
        Ok(ListBlock {
            block,
            starts: VecDeque::new(alloc),
        })
    }

    /// The same for resources of both kinds.
    pub fn mixed(alloc: Global, size: u64) -> Result<ListBlock, AllocError>
        requires some { 0 < size }
        requires bound { size < 2 ^ 62 }
    {
        let block = Tlsf::mixed(alloc, size)?;
        Ok(ListBlock {
            block,
            starts: VecDeque::new(alloc),
        })
    }
}

impl LiveBlock for ListBlock {
    fn live(&self) -> usize {
        self.starts.len()
    }

    fn allocate(&mut self, request: Request) -> Result<u64, SubFault> {
        if self.starts.reserve(1).is_err() {
            return Err(SubFault::NoMemory);
        }
        let start = place(&mut self.block, request)?;
        self.starts.push_back_reserved(start);
        Ok(start)
    }

    fn give_back(&mut self, which: Which) -> Option<u64> {
        let start = remove(&mut self.starts, which)?;
        self.block.free(start);
        Some(start)
    }

    fn largest_free(&self) -> u64 {
        self.block.largest_free()
    }

    fn taken(&self) -> Result<Vec<TakenRange>, AllocError> {
        self.block.taken()
    }
}

/// Takes a range, and answers its start.
fn place(block: &mut Tlsf, request: Request) -> Result<u64, SubFault>
    ensures ok { IfOk result (λ start. AddsStart block.old block.new start) }
    ensures err { OnErr result (taken block.new ≡ taken block.old) }
{
    let bytes = request.bytes();
    let align = request.align.bytes();
    match request.target {
        Target::Below(limit) => block.allocate_below(bytes, align, request.kind, 0, limit),
        Target::Anywhere | Target::Upper => block.allocate(bytes, align, request.kind),
    }
}
