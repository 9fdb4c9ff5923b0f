use crate::live_block::{LiveBlock, Which};
use crate::request::Request;
use crate::starts::remove;
use std::alloc::{AllocError, Global};
use std::collections::VecDeque;
use vk_model::{SubFault, TakenRange};

/// No block: each request is answered by its size.
#[derive(Drop)]
pub struct NoBlock {
    alloc: Global,
    starts: VecDeque<u64>,
}

impl NoBlock {
    /// Without a range.
    pub fn new(alloc: Global) -> NoBlock {
        NoBlock {
            alloc,
            starts: VecDeque::new(alloc),
        }
    }
}

impl LiveBlock for NoBlock {
    fn live(&self) -> usize {
        self.starts.len()
    }

    fn allocate(&mut self, request: Request) -> Result<u64, SubFault> {
        if self.starts.reserve(1).is_err() {
            return Err(SubFault::NoMemory);
        }
        let start = request.bytes();
        self.starts.push_back_reserved(start);
        Ok(start)
    }

    fn give_back(&mut self, which: Which) -> Option<u64> {
        remove(&mut self.starts, which)
    }

    fn largest_free(&self) -> u64 {
        0
    }

    fn taken(&self) -> Result<Vec<TakenRange>, AllocError> {
        Ok(Vec::new(self.alloc))
    }
}
