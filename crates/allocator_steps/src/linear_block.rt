ghost use Rattle.std.specs.Prelude.{◌<◌, ◌^◌};

use crate::live_block::{LiveBlock, Which};
use crate::request::{Request, Target};
use crate::starts::remove;
use std::alloc::{AllocError, Global};
use std::collections::VecDeque;
use vk_model::{SubFault, TakenRange};
use vma_linear::Linear;

/// A linear block, with the starts of the ranges that are live in it.
#[derive(Drop)]
pub struct LinearBlock {
    block: Linear,
    starts: VecDeque<u64>,
}

impl LinearBlock {
    /// A block of `size` bytes of which nothing is taken; with `ring`, ranges may go round to its
    /// start.
    pub fn new(alloc: Global, size: u64, ring: bool) -> LinearBlock
        requires { size < 2 ^ 63 }
    {
        LinearBlock {
            block: Linear::new(alloc, size, ring),
            starts: VecDeque::new(alloc),
        }
    }
}

impl LiveBlock for LinearBlock {
    fn live(&self) -> usize {
        self.starts.len()
    }

    fn allocate(&mut self, request: Request) -> Result<u64, SubFault> {
        if self.starts.reserve(1).is_err() {
            return Err(SubFault::NoMemory);
        }
        let bytes = request.bytes();
        let align = request.align.bytes();
        let start = match request.target {
            Target::Upper => self.block.allocate_upper(bytes, align, request.kind)?,
            Target::Anywhere | Target::Below(_) => {
                self.block.allocate_lower(bytes, align, request.kind)?
            }
        };
        self.starts.push_back_reserved(start);
        Ok(start)
    }

    fn give_back(&mut self, which: Which) -> Option<u64> {
        let start = remove(&mut self.starts, which)?;
        self.block.give_back(start);
        Some(start)
    }

    fn largest_free(&self) -> u64 {
        self.block.widest_gap()
    }

    fn taken(&self) -> Result<Vec<TakenRange>, AllocError> {
        self.block.taken()
    }
}
