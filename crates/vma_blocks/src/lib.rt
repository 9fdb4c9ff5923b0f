//! A block of a pool, whichever algorithm places the ranges that are taken in it.
#![tactic(auto)]

mod any;
mod block;
mod general;
mod stack;

pub use any::AnyBlock;
pub use block::PoolBlock;
