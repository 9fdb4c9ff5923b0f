use crate::request::Request;
use std::alloc::AllocError;
use vk_model::{SubFault, TakenRange};

/// Which of the live ranges is given back.
#[derive(Clone, Copy, Debug)]
pub enum Which {
    /// The one that was taken first.
    First,
    /// The one that was taken last.
    Last,
    /// The one at this place among them.
    At(usize),
}

/// A block with the ranges that are live in it.
pub trait LiveBlock: Drop {
    /// How many ranges are live.
    fn live(&self) -> usize;

    /// Takes a range, and answers its start in bytes.
    fn allocate(&mut self, request: Request) -> Result<u64, SubFault>;

    /// Gives a range back, and answers its start in bytes, or `None` where there is no such range.
    fn give_back(&mut self, which: Which) -> Option<u64>;

    /// The length in bytes of the longest free range.
    fn largest_free(&self) -> u64;

    /// The ranges that are taken.
    fn taken(&self) -> Result<Vec<TakenRange>, AllocError>;
}
